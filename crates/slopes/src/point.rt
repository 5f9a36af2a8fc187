// The slope that is built at each point of a table, in the slope unit.
ghost use Rattle.std.specs.Prelude.{◌≡◌, ◌-◌, ◌≤◌, ◌<◌, length};
ghost use Rattle.slopes.specs.Slopes.{built_slope};
ghost use Rattle.slopes.specs.Put.{put};

use crate::rule;
use rules::SlopeUnit;
use table::GoodPoints;

// At point i: the secant of two points, the end rule at an end of more, which looks at the end piece and at the one beside it, and else the mean of the pieces on its left and right.
fn slope(unit: SlopeUnit, points: GoodPoints<'_>, i: usize) -> i32
    requires { i < length points.knots.now }
    ensures { result ≡ built_slope unit.size points.entry.knots.now points.entry.values.now i }
{
    let n = points.knots.len();
    if n < 3 {
        return rule::secant(unit, points.piece(0));
    }
    if i == 0 {
        return rule::end(unit, points.piece(0), points.piece(1));
    }
    if n - i < 2 {
        return rule::end(unit, points.piece(i - 1), points.piece(i - 2));
    }
    rule::inner(unit, points.piece(i - 1), points.piece(i))
}

// Puts the slopes of the points from `from` up to and without `to` into their places.
pub fn renew(unit: SlopeUnit, points: GoodPoints<'_>, slopes: &mut [i32], from: usize, to: usize)
    requires slopes_len { length slopes.old ≡ length points.knots.now }
    requires from_le_to { from ≤ to }
    requires to_in_bounds { to ≤ length points.knots.now }
    ensures { slopes.new ≡ put (built_slope unit.size points.entry.knots.now points.entry.values.now) from (to - from) slopes.old }
{
    for i in from..to {
        slopes[i] = slope(unit, points, i);
    }
}
