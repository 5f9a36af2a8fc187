// The numbers of the exact rules: the limits, the slope units, and how a refusal is answered.
#![tactic(auto)]

mod limits;

ghost use Rattle.std.specs.Prelude.{◌≡◌};
ghost use Rattle.integers.specs.Promise.{Decided};
ghost use Rattle.rules.specs.Limits.{unit, UnitWithin, CountWithin, WidthWithin, RiseWithin};
ghost use Rattle.rules.specs.Causes.{number_of, at_place_0};

pub use limits::{Extent, SlopeUnit};

// Why a table, a change of a point, a position or a float answer is refused, in the order in which they are checked, each with its number in the exact rules.
#[derive(Clone, Copy, PartialEq, Eq)]
pub enum Cause {
    // The slope unit is not in 0 to 8.
    SlopeUnit = 12,
    // The lists' lengths differ.
    Lengths = 1,
    // Fewer than 2 or more than 1,024 points.
    Count = 2,
    // No point with this number.
    Point = 7,
    // A width is not in 1 to 1,024.
    Width = 3,
    // A rise is outside its limits.
    Rise = 4,
    // A piece is not monotone.
    Bend = 5,
    // A position before the first or after the last knot.
    Position = 6,
    // A piece too large for the exact float answer.
    Size = 8,
}

impl Cause {
    // The number that the exact rules give the cause. None has the number 0, which says that nothing is refused.
    pub fn number(self) -> u32
        ensures { result ≡ number_of self }
    {
        self as u32
    }
}

// A refusal: its cause, and the place that it names, which is 0 where the cause is that of no piece.
#[derive(Clone, Copy, PartialEq, Eq)]
pub struct Refused {
    pub cause: Cause,
    pub place: usize,
}

impl Refused {
    // A refusal by a cause that is that of no piece.
    pub fn by(cause: Cause) -> Refused
        ensures { result ≡ at_place_0 cause }
    {
        Refused { cause, place: 0 }
    }
}

// A float answer is given up to 2^40, for the size of a rise times its width cubed.
pub const EXACT: i64 = 1099511627776;

// Whether s is in 0 to 8: slopes are in units of 1/2^s of a value per count.
pub fn unit_within(s: u32) -> bool
    ensures { Decided (UnitWithin s) result }
{
    s <= 8
}

// The unit 2^s.
pub fn unit(s: u32) -> SlopeUnit
    requires { UnitWithin s }
    ensures { result.size ≡ unit s }
{
    SlopeUnit { size: 1 << s }
}

// Whether a number of points is in 2 to 1,024.
#[tactic(auto, using(crate::proofs::Counted::too_few, crate::proofs::Counted::if_not_too_many))]
pub fn count_within(n: usize) -> bool
    ensures { Decided (CountWithin n) result }
{
    if n < 2 {
        return false;
    }
    n <= 1024
}

// Whether a width is in 1 to 1,024.
pub fn width_within(h: i64) -> bool
    ensures { Decided (WidthWithin h) result }
{
    integers::between(1, h, 1024)
}

// Whether a rise is in -1,048,576 to 1,048,576.
pub fn rise_within(z: i64) -> bool
    ensures { Decided (RiseWithin z) result }
{
    integers::between(-1048576, z, 1048576)
}
