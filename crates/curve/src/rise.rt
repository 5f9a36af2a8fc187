// What the curve has risen by, t counts into a piece.
ghost use Rattle.std.specs.Prelude.{◌≡◌, pos};
ghost use Rattle.integers.specs.Promise.{Between};
ghost use Rattle.cubic.specs.Horner.{by_horner};
ghost use Rattle.cubic.specs.Value.{risen};
ghost use Rattle.rules.specs.Limits.{WidthWithin};
ghost use Rattle.curve.specs.Sizes.{Small};

use piece::Cubic;
use position::Inside;

// The cubic first·t·h² + second·t²·h + third·t³, by Horner's steps. The coefficients of an accepted piece are so small that each step fits.
fn numerator(cubic: Cubic, t: i64, h: i64) -> i64
    requires small { Small cubic.first cubic.second cubic.third }
    requires width_within { WidthWithin h }
    requires between { Between (pos 0) t h }
    ensures { result ≡ by_horner cubic.first cubic.second cubic.third t h }
{
    ((cubic.third * t + cubic.second * h) * t + cubic.first * (h * h)) * t
}

// Its quotient by U·h³, where U is the slope unit, rounded to the nearest whole number, a half going up, whether the piece rises or falls.
pub(crate) fn risen(at: Inside) -> i64
    ensures { result ≡ risen at.unit.size at.spot.h at.spot.z at.spot.m at.spot.n at.spot.t }
{
    let h = at.spot.h;
    let cubic = piece::coefficients(at.unit, at.extent(), at.spot.m, at.spot.n);
    let above = numerator(cubic, at.spot.t, h);
    integers::nearest_div(above, at.unit.size * (h * h * h))
}
