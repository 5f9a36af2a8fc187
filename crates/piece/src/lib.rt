// The verdict on one piece: rising, falling, flat or bends, or the refusal of a piece outside the limits. And the cubic of a piece.
#![tactic(auto)]

ghost use Rattle.integers.specs.Promise.{Decided};
ghost use Rattle.integers.specs.Within.{Within};
ghost use Rattle.cubic.specs.Piece.{NeverAgainst, Monotone};
ghost use Rattle.cubic.specs.OneTest.{SquareWithin};
ghost use Rattle.piece.specs.Promise.{Judged, ruling_of};
ghost use Rattle.piece.specs.Sizes.{WithSign, Moderate, Low};
ghost use Rattle.piece.specs.Cubic.{UnitsOf, Coefficients};

use rules::{Cause, Extent, Refused, SlopeUnit};

// What is answered of a piece within the limits.
#[derive(Clone, Copy, PartialEq, Eq)]
pub enum Verdict {
    Rising,
    Falling,
    Flat,
    Bends,
}

// The cubic of a piece, first·t·h² + second·t²·h + third·t³, by its coefficients.
#[derive(Clone, Copy)]
pub struct Cubic {
    pub first: i64,
    pub second: i64,
    pub third: i64,
}

// Z, a and b of the exact rules.
#[derive(Clone, Copy)]
struct Units {
    rise: i64,
    a: i64,
    b: i64,
}

// Z = U·z, a = m·h and b = n·h, of a piece within the limits, or turned, where U is the slope unit.
fn in_units(unit: SlopeUnit, h: i64, z: i64, m: i32, n: i32) -> Units
    requires within { Within 1024 h }
    requires within_2 { Within 1048576 z }
    ensures units_of { UnitsOf unit.size h z m n result.rise result.a result.b }
    ensures moderate { Moderate result.rise result.a result.b }
{
    Units {
        rise: unit.size * z,
        a: i64::from(m) * h,
        b: i64::from(n) * h,
    }
}

// x, with the other sign where `sign` is negative.
fn turned(sign: i64, x: i64) -> i64
    requires { Within 3000000000 x }
    ensures { WithSign sign x result }
{
    if sign < 0 { -x } else { x }
}

// Fritsch and Carlson's last test, of a and b from 0 on, from what they have over 3Z, squared with its sign: where that is below 0 the test holds. The callers' sizes leave
// room for both products.
fn square_within(over: i64, a: i64, b: i64) -> bool
    requires { Low over a b }
    ensures { Decided (SquareWithin over a b) result }
{
    over * turned(over, over) <= a * b
}

// Whether a cubic of the rise Z never slopes against it, by Fritsch and Carlson's test in its short form: a and b from 0 on, and not above the line
// a + b = 3Z, or in the ellipse (a + b − 3Z)² ≤ a·b. Nothing above 4Z is in the ellipse, so that both products fit. Where Z is 0, so are a and b. Nothing is
// told apart here that one accepted piece has and another has not: the test takes the same time for both.
fn never_against(rise: i64, a: i64, b: i64) -> bool
    requires { Moderate rise a b }
    ensures { Decided (NeverAgainst rise a b) result }
{
    integers::between(0, a, 4 * rise)
        && integers::between(0, b, 4 * rise)
        && square_within(a + b - 3 * rise, a, b)
}

// Whether a piece is monotone, with slopes in 1/unit: the one test, of the piece turned so that it does not fall.
pub fn is_monotone(unit: SlopeUnit, extent: Extent, m: i32, n: i32) -> bool
    ensures { Decided (Monotone unit.size extent.h extent.z m n) result }
{
    let Extent { h, z } = extent;
    let u = in_units(unit, turned(z, h), turned(z, z), m, n);
    never_against(u.rise, u.a, u.b)
}

// The verdict on the piece of width h and rise z with the slopes m and n at its ends, in 1/2^s of a value per count, or its refusal, at place 0: by 12 where s is above 8,
// else by 3 where the width, else by 4 where the rise is outside its limits.
pub fn judge(s: u32, h: i64, z: i64, m: i32, n: i32) -> Result<Verdict, Refused>
    ensures { Judged s h z m n (ruling_of result) }
{
    if !rules::unit_within(s) {
        return Err(Refused::by(Cause::SlopeUnit));
    }
    if !rules::width_within(h) {
        return Err(Refused::by(Cause::Width));
    }
    if !rules::rise_within(z) {
        return Err(Refused::by(Cause::Rise));
    }
    if !is_monotone(rules::unit(s), Extent { h, z }, m, n) {
        return Ok(Verdict::Bends);
    }
    if 0 < z {
        return Ok(Verdict::Rising);
    }
    if z < 0 {
        return Ok(Verdict::Falling);
    }
    Ok(Verdict::Flat)
}

// The coefficients of a piece, with slopes in 1/unit: a, 3Z − 2a − b and a + b − 2Z.
pub fn coefficients(unit: SlopeUnit, extent: Extent, m: i32, n: i32) -> Cubic
    ensures { Coefficients unit.size extent.h extent.z m n result.first result.second result.third }
{
    let Units { rise, a, b } = in_units(unit, extent.h, extent.z, m, n);
    Cubic {
        first: a,
        second: 3 * rise - 2 * a - b,
        third: a + b - 2 * rise,
    }
}
