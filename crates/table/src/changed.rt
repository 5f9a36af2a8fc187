// A change of one point, and the points as they would be after it: read so, and not written. What reads them as they are is in `pieces`, by itself: with a change asked of at every
// entry a check takes half as long again.
ghost use Rattle.std.specs.Prelude.{◌≡◌, ◌+◌, ◌<◌, length, set};
ghost use Rattle.table.specs.Table.{entry, step};
ghost use Rattle.table.specs.Search.{Read};

use crate::pieces;

// A point's number, and the knot and the value that it shall have.
#[repr(C)]
#[derive(Clone, Copy, PartialEq, Eq)]
pub struct Change {
    pub point: usize,
    pub knot: i32,
    pub value: i32,
}

// Entry i of the list as it would be with `new` at the place `at`, if it has this place.
pub(crate) fn entry(list: &[i32], at: usize, new: i32, i: usize) -> i64
    requires { i < length list.now }
    ensures { Read (entry (set list.now at new) i) result }
{
    if i == at {
        i64::from(new)
    } else {
        pieces::entry(list, i)
    }
}

// Piece i's width or rise, of the list as it would be.
pub(crate) fn step(list: &[i32], at: usize, new: i32, i: usize) -> i64
    requires { i + 1 < length list.now }
    ensures { result ≡ step (set list.now at new) i }
{
    entry(list, at, new, i + 1) - entry(list, at, new, i)
}
