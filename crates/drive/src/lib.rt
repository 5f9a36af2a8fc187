// What a drive is told at a position, in floats.
#![tactic(auto)]

ghost use Rattle.std.specs.Prelude.{◌≡◌};
ghost use Rattle.std.specs.Float.{binary64};
ghost use Rattle.integers.specs.Promise.{Decided};
ghost use Rattle.floats.specs.Promise.{Exactly};
ghost use Rattle.cubic.specs.Value.{numerator, denominator};
ghost use Rattle.rules.specs.Causes.{number, place};
ghost use Rattle.rules.specs.Limits.{TooLarge};
ghost use Rattle.table.specs.Held.{held};
ghost use Rattle.drive.specs.Drive.{told_of, telling, ToldIn, Driving};
ghost use Rattle.drive.specs.Refused.{AnsweredOn};

mod horner;

use position::Inside;
use rules::{Cause, Extent, Refused};
use table::Table;

// Where the curve is at a position, as the drive takes it: left + numerator / denominator. Each is a whole number, exactly.
#[derive(Clone, Copy)]
pub struct Floats {
    pub left: f64,
    pub numerator: f64,
    pub denominator: f64,
}

// A dwell at a level, or a move.
#[derive(Clone, Copy)]
pub enum Answer {
    Dwell(f64),
    Move(Floats),
}

// Whether the size of the rise times the width cubed is above 2^40. Within the limits it stays below 2^51.
fn too_large(extent: Extent) -> bool
    ensures { Decided (TooLarge extent.h extent.z) result }
{
    let h = extent.h;
    !integers::between(-rules::EXACT, extent.z * (h * h * h), rules::EXACT)
}

// A move in a piece that is not too large: the left value, and what the curve has risen by since, over its denominator.
fn moving(at: Inside) -> Floats
    requires { TooLarge at.spot.h at.spot.z → ⊥ }
    ensures left { Exactly binary64 at.spot.left result.left }
    ensures numerator { Exactly binary64 (numerator at.unit.size at.spot.h at.spot.z at.spot.m at.spot.n at.spot.t) result.numerator }
    ensures denominator { Exactly binary64 (denominator at.unit.size at.spot.h) result.denominator }
{
    let h = at.spot.h;
    let cubic = piece::coefficients(at.unit, at.extent(), at.spot.m, at.spot.n);
    Floats {
        left: at.spot.left as f64,
        numerator: horner::numerator(cubic, at.spot.t, h),
        denominator: (at.unit.size * (h * h * h)) as f64,
    }
}

// What the drive is told in a piece that is not too large.
fn told(at: Inside) -> Answer
    requires { TooLarge at.spot.h at.spot.z → ⊥ }
    ensures { ToldIn at.unit.size at.spot.left at.spot.h at.spot.z at.spot.m at.spot.n at.spot.t (told_of result) }
{
    if at.spot.z == 0 {
        Answer::Dwell(at.spot.left as f64)
    } else {
        Answer::Move(moving(at))
    }
}

// What the drive is told in a piece, or its refusal where it is too large.
fn answer_on(at: Inside) -> Result<Answer, Refused>
    ensures { AnsweredOn at.unit.size at.spot.piece at.spot.left at.spot.h at.spot.z at.spot.m at.spot.n at.spot.t (number result) (place result) (telling result) }
{
    if too_large(at.extent()) {
        return Err(Refused {
            cause: Cause::Size,
            place: at.spot.piece,
        });
    }
    Ok(told(at))
}

// What the drive is told at a position, or the refusal, in the order 12, 1, 2, 3, 4, 5, 6, 8: the whole table is checked first, then the position, and then the
// size of its piece.
pub fn float_answer(table: Table<'_>, position: i32) -> Result<Answer, Refused>
    ensures { Driving (held table.entry) position (number result) (place result) (telling result) }
{
    answer_on(position::find(table, position)?)
}
