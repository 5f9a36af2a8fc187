// One point, and from one to the next.
ghost use Rattle.std.specs.Prelude.{◌≡◌, ◌+◌, ◌<◌, length};
ghost use Rattle.table.specs.Table.{entry, step};
ghost use Rattle.table.specs.Search.{Read};

// Entry i, widened, so that a difference of two fits.
pub(crate) fn entry(list: &[i32], i: usize) -> i64
    requires { i < length list.now }
    ensures { Read (entry list.now i) result }
{
    i64::from(list[i])
}

// Piece i's width, of the knots, or its rise, of the values.
pub fn step(list: &[i32], i: usize) -> i64
    requires { i + 1 < length list.now }
    ensures { result ≡ step list.now i }
{
    integers::difference(list[i], list[i + 1])
}
