// The numerator of a value, worked out in floats.
ghost use Rattle.std.specs.Prelude.{◌^◌};
ghost use Rattle.std.specs.Float.{binary64};
ghost use Rattle.floats.specs.Promise.{Exactly};
ghost use Rattle.cubic.specs.Horner.{by_horner, HornerWithin};

use piece::Cubic;

// The cubic first·t·h² + second·t²·h + third·t³, by Horner's steps in floats. Up to 2^53 a float holds every whole number, so that each step is exact. A
// product of 0 and a negative number is −0, and adding 0 makes it +0.
pub(crate) fn numerator(cubic: Cubic, t: i64, h: i64) -> f64
    requires { HornerWithin (2 ^ 53) cubic.first cubic.second cubic.third t h }
    ensures { Exactly binary64 (by_horner cubic.first cubic.second cubic.third t h) result }
{
    let place = t as f64;
    let width = h as f64;
    let upper = cubic.third as f64 * place + cubic.second as f64 * width;
    (upper * place + cubic.first as f64 * (width * width)) * place + 0.0
}
