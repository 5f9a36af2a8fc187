// Whether pieces are within the limits. Faults are counted, and none ends the loop, so that compilers make vectors of it; which one is the first is left to the search.
ghost use Rattle.std.specs.Prelude.{◌≡◌, cond, ◌+◌, ◌-◌, ◌≤◌, ◌<◌, length};
ghost use Rattle.integers.specs.Promise.{Decided};
ghost use Rattle.table.specs.Pieces.{Paired, PiecesWithin, PieceAfter, PiecesAfter};

use crate::changed::Change;
use crate::{changed, pieces};

// 0 for what is within its limits, and else 1.
fn fault(within: bool) -> usize
    ensures { result ≡ cond within 0 1 }
{
    usize::from(!within)
}

// Whether all pieces from `from` up to and without `end` are within the limits.
pub(crate) fn all(knots: &[i32], values: &[i32], from: usize, end: usize) -> bool
    requires paired { Paired knots.now values.now }
    requires from_le_end { (from ≤ end) × (end < length knots.now) }
    ensures { Decided (PiecesWithin knots.now values.now from end) result }
{
    let mut faults: usize = 0;
    for i in from..end {
        faults += fault(rules::width_within(pieces::step(knots, i)));
        faults += fault(rules::rise_within(pieces::step(values, i)));
    }
    faults == 0
}

// Whether piece i is, as it would be after the change.
fn one_after(change: Change, knots: &[i32], values: &[i32], i: usize) -> bool
    requires paired { Paired knots.now values.now }
    requires i_in_bounds { i + 1 < length knots.now }
    ensures { Decided (PieceAfter change knots.now values.now i) result }
{
    rules::width_within(changed::step(knots, change.point, change.knot, i))
        && rules::rise_within(changed::step(values, change.point, change.value, i))
}

// Whether all pieces are, as they would be after the change. At most two are touched by it: the one on the left of the changed point, and the one on its right.
pub(crate) fn all_after(change: Change, knots: &[i32], values: &[i32]) -> bool
    requires paired { Paired knots.now values.now }
    requires point_in_bounds { change.point < length knots.now }
    ensures { Decided (PiecesAfter change knots.now values.now 0 (length knots.now - 1)) result }
{
    let k = change.point;
    let last = knots.len() - 1;
    (k == 0 || one_after(change, knots, values, k - 1) && all(knots, values, 0, k - 1))
        && (k == last || one_after(change, knots, values, k) && all(knots, values, k + 1, last))
}
