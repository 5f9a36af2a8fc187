// The slope at a point, from the pieces beside it, in the slope unit.
ghost use Rattle.std.specs.Prelude.{◌≡◌, pos, ◌*ℤ◌, ◌≤ℤ◌, ◌<ℤ◌};
ghost use Rattle.integers.specs.Within.{Within};
ghost use Rattle.cubic.specs.Slopes.{secant_slope, end_slope, mean, inner_slope};

use rules::{Extent, SlopeUnit};

// Where there are two points alone: the slope of their piece, rounded toward zero.
pub(crate) fn secant(unit: SlopeUnit, only: Extent) -> i32
    ensures { result ≡ secant_slope unit.size only.h only.z }
{
    let steepness = unit.size * only.z / only.h;
    steepness as i32
}

// At an end whose piece does not fall, beside the next piece: the quotient above/below, rounded down, but at least 0 and at most the bound 3·z1/h1. Within the limits the products stay below 2^53, and
// the slope below 2^30.
fn rising_end(unit: SlopeUnit, first: Extent, next: Extent) -> i32
    requires { pos 0 ≤ℤ first.z }
    ensures { result ≡ end_slope unit.size first.h first.z next.h next.z }
{
    let (h1, z1) = (first.h, first.z);
    let (h2, z2) = (next.h, next.z);
    let above = (2 * h1 + h2) * z1 * h2 - h1 * z2 * h1;
    if above <= 0 {
        return 0;
    }
    let below = h1 * h2 * (h1 + h2);
    if 3 * z1 * below < above * h1 {
        let bound = unit.size * (3 * z1) / h1;
        return bound as i32;
    }
    let quotient = unit.size * above / below;
    quotient as i32
}

// At an end of the table, with its first piece from there and the next.
pub(crate) fn end(unit: SlopeUnit, first: Extent, next: Extent) -> i32
    ensures { result ≡ end_slope unit.size first.h first.z next.h next.z }
{
    if first.z < 0 {
        return -rising_end(unit, first.mirrored(), next.mirrored());
    }
    rising_end(unit, first, next)
}

// Between two rises: their slopes' mean, rounded down, with the product of the rises, which is there already. Within the limits the product above stays below 2^61, and the mean below 2^30.
fn mean(unit: SlopeUnit, left: Extent, right: Extent, both: i64) -> i32
    requires left_rises { pos 0 <ℤ left.z }
    requires right_rises { pos 0 <ℤ right.z }
    requires both { both ≡ left.z *ℤ right.z }
    ensures value { result ≡ mean unit.size left.h left.z right.h right.z }
    ensures size { Within 805306368 result }
{
    let (h1, z1) = (left.h, left.z);
    let (h2, z2) = (right.h, right.z);
    let above = 3 * unit.size * (h1 + h2) * both;
    let below = (h1 + 2 * h2) * h1 * z2 + (2 * h1 + h2) * h2 * z1;
    let steepness = above / below;
    steepness as i32
}

// At an inner point, between the pieces on its left and on its right.
pub(crate) fn inner(unit: SlopeUnit, left: Extent, right: Extent) -> i32
    ensures { result ≡ inner_slope unit.size left.h left.z right.h right.z }
{
    let both = left.z * right.z;
    if both <= 0 {
        return 0;
    }
    if left.z < 0 {
        return -mean(unit, left.mirrored(), right.mirrored(), both);
    }
    mean(unit, left, right, both)
}
