// Signed arithmetic that is what the integers say: no result here is computed from a wrapped number.
#![tactic(auto)]

ghost use Rattle.std.specs.Prelude.{◌≡◌, ◌-ℤ◌};
ghost use Rattle.integers.specs.Promise.{Decided, Quotient, Rounded, Between};

// 2^62: the half of any number lies below it, and the sum of such a half and a number below it fits.
const ROOM: i64 = 1 << 62;

// The difference of any two 32-bit numbers, right minus left. It is taken in 64 bits, where it always fits.
pub fn difference(left: i32, right: i32) -> i64
    ensures { result ≡ right -ℤ left }
{
    i64::from(right) - i64::from(left)
}

// Whether x is at least low and at most high.
pub fn between(low: i64, x: i64, high: i64) -> bool
    ensures { Decided (Between low x high) result }
{
    low <= x && x <= high
}

// n/d rounded down where d is positive, and 0 where it is not. The machine rounds toward zero, which is one too much where a remainder is left
// below zero. `div_euclid` tests the sign of d once more; and 0 for no quotient keeps the promise one equation, with nothing asked of a caller.
pub fn floor_div(n: i64, d: i64) -> i64
    ensures { Quotient n d result }
{
    if d < 1 {
        return 0;
    }
    let q = n / d;
    if n % d < 0 { q - 1 } else { q }
}

// n/d rounded to the nearest whole number, a half going up, where d is positive, and 0 where it is not: a half of d is added, and the quotient is rounded down. Where d is odd no
// n/d lies halfway between two whole numbers, so that its half may be rounded down too. Where the sum might not fit, d is taken off n first, and 1 put on the quotient.
pub fn nearest_div(n: i64, d: i64) -> i64
    ensures { Rounded n d result }
{
    if d < 1 {
        return 0;
    }
    let half = d / 2;
    if n < ROOM {
        return floor_div(n + half, d);
    }
    floor_div(n - d + half, d) + 1
}
