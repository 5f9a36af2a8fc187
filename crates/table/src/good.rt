// Points that are known to be within the limits.
ghost use Rattle.std.specs.Prelude.{◌≡◌, ◌+◌, ◌<◌, length};
ghost use Rattle.table.specs.Accepted.{PointsWithin};
ghost use Rattle.table.specs.Table.{step};

use crate::pieces;
use rules::Extent;

// Knots and values, as they are lent: as many values as knots, in number, width and rise within the limits.
#[derive(Clone, Copy)]
pub struct GoodPoints<'a> {
    pub knots: &'a [i32],
    pub values: &'a [i32],
    ghost within: { PointsWithin knots.now values.now },
}

impl GoodPoints<'_> {
    // Piece i, from point i to point i + 1.
    pub fn piece(self, i: usize) -> Extent
        requires { i + 1 < length self.knots.now }
        ensures h { result.h ≡ step self.entry.knots.now i }
        ensures z { result.z ≡ step self.entry.values.now i }
    {
        Extent {
            h: pieces::step(self.knots, i),
            z: pieces::step(self.values, i),
        }
    }
}
