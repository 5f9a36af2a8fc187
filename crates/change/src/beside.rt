// The slopes that depend on a point: its own, those of the points beside it and, near an end, that of the end.
ghost use Rattle.std.specs.Prelude.{◌≡◌, ◌<◌, length};
ghost use Rattle.slopes.specs.Slopes.{built_slope};
ghost use Rattle.change.specs.Change.{renewed};
ghost use Rattle.change.specs.Beside.{From, UpTo};

use rules::SlopeUnit;
use table::GoodPoints;

// The first of them.
#[tactic(auto, using(crate::specs::Beside::the_start, crate::specs::Beside::one_before))]
fn first(k: usize) -> usize
    ensures { From k result }
{
    if k < 3 { 0 } else { k - 1 }
}

// The one behind the last of them, in a table of n points.
#[tactic(auto, using(crate::specs::Beside::the_end, crate::specs::Beside::two_behind))]
fn end(k: usize, n: usize) -> usize
    requires { k < n }
    ensures { UpTo n k result }
{
    if n - k < 4 { n } else { k + 2 }
}

// Puts the slopes of these points into their places, as a build does.
pub(crate) fn renew(unit: SlopeUnit, points: GoodPoints<'_>, slopes: &mut [i32], k: usize)
    requires slopes_len { length slopes.old ≡ length points.knots.now }
    requires k_in_bounds { k < length points.knots.now }
    ensures { slopes.new ≡ renewed k (built_slope unit.size points.entry.knots.now points.entry.values.now) slopes.old }
{
    slopes::renew(unit, points, slopes, first(k), end(k, points.knots.len()));
}
