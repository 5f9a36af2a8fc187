// The verdict on a piece, and what is answered at a position.
ghost use Rattle.table.specs.Table.{table};
ghost use Rattle.position.specs.Position.{Located};
ghost use Rattle.curve.specs.Curve.{Evaluated};
ghost use Rattle.exports.specs.Cases.{JudgedAs, DrivenAs};

use crate::kinds::numbered;
use crate::records::{Refusal, crossed, done, refusal_of};
use drive::Answer;
use table::Table;

// No verdict, where the piece is refused.
const NONE: u32 = 0;

// What the drive is told.
const DWELL: u32 = 0;

const MOVE: u32 = 1;

// A verdict, or the refusal and none.
#[repr(C)]
#[derive(Clone, Copy)]
pub struct Judgement {
    pub refusal: Refusal,
    pub verdict: u32,
}

// What the drive is told, left + numerator / denominator, or the refusal and a dwell at 0. A dwell has its level on the left, 0 above and 1 below.
#[repr(C)]
#[derive(Clone, Copy)]
pub struct Told {
    pub refusal: Refusal,
    pub kind: u32,
    pub left: f64,
    pub numerator: f64,
    pub denominator: f64,
}

// A position's piece, or the refusal and piece 0.
#[repr(C)]
#[derive(Clone, Copy)]
pub struct Place {
    pub refusal: Refusal,
    pub piece: usize,
}

// The value at a position, or the refusal and the value 0.
#[repr(C)]
#[derive(Clone, Copy)]
pub struct Value {
    pub refusal: Refusal,
    pub value: i32,
}

pub fn negwafir_judge(s: u32, h: i64, z: i64, m: i32, n: i32) -> Judgement
    ensures { JudgedAs s h z m n result.refusal.number result.refusal.place result.verdict }
{
    match piece::judge(s, h, z, m, n) {
        Ok(verdict) => Judgement {
            refusal: done(),
            verdict: numbered(verdict),
        },
        Err(refused) => Judgement {
            refusal: refusal_of(refused),
            verdict: NONE,
        },
    }
}

pub fn negwafir_locate(
    s: u32,
    knots: &[i32],
    values: &[i32],
    slopes: &[i32],
    position: i32,
) -> Place
    ensures { Located (table s knots.now values.now slopes.now) position result.refusal.number result.refusal.place result.piece }
{
    let table = Table {
        s,
        knots,
        values,
        slopes,
    };
    let (refusal, piece) = crossed(position::locate(table, position), 0);
    Place { refusal, piece }
}

pub fn negwafir_evaluate(
    s: u32,
    knots: &[i32],
    values: &[i32],
    slopes: &[i32],
    position: i32,
) -> Value
    ensures { Evaluated (table s knots.now values.now slopes.now) position result.refusal.number result.refusal.place result.value }
{
    let table = Table {
        s,
        knots,
        values,
        slopes,
    };
    let (refusal, value) = crossed(curve::evaluate(table, position), 0);
    Value { refusal, value }
}

pub fn negwafir_float_answer(
    s: u32,
    knots: &[i32],
    values: &[i32],
    slopes: &[i32],
    position: i32,
) -> Told
    ensures { DrivenAs (table s knots.now values.now slopes.now) position result.refusal.number result.refusal.place result.kind result.left result.numerator result.denominator }
{
    let table = Table {
        s,
        knots,
        values,
        slopes,
    };
    let (refusal, answer) = crossed(drive::float_answer(table, position), Answer::Dwell(0.0));
    match answer {
        Answer::Dwell(level) => Told {
            refusal,
            kind: DWELL,
            left: level,
            numerator: 0.0,
            denominator: 1.0,
        },
        Answer::Move(floats) => Told {
            refusal,
            kind: MOVE,
            left: floats.left,
            numerator: floats.numerator,
            denominator: floats.denominator,
        },
    }
}
