// The slopes of all inner points, in one run: a point's right piece is the next one's left, and is carried along.
ghost use Rattle.std.specs.Prelude.{◌≡◌, ◌-◌, length};
ghost use Rattle.slopes.specs.Slopes.{built_slope};
ghost use Rattle.slopes.specs.Put.{put};

use crate::rule;
use rules::SlopeUnit;
use table::GoodPoints;

// Puts the slopes of the points between the first and the last into their places. The ends have a rule of their own, which `point::renew` knows, and are
// left as they are.
pub(crate) fn inner(unit: SlopeUnit, points: GoodPoints<'_>, slopes: &mut [i32])
    requires { length slopes.old ≡ length points.knots.now }
    ensures { slopes.new ≡ put (built_slope unit.size points.entry.knots.now points.entry.values.now) 1 (length points.entry.knots.now - 2) slopes.old }
{
    let last = points.knots.len() - 1;
    let mut left = points.piece(0);
    for i in 1..last {
        let right = points.piece(i);
        slopes[i] = rule::inner(unit, left, right);
        left = right;
    }
}
