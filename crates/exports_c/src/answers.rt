// The verdict on a piece, and what is answered at a position.
ghost use Rattle.table.specs.Table.{table};
ghost use Rattle.position.specs.Position.{Located};
ghost use Rattle.curve.specs.Curve.{Evaluated};
ghost use Rattle.exports.specs.Cases.{JudgedAs, DrivenAs};

use exports::{Judgement, Place, Told, Value};

#[unsafe(no_mangle)]
pub extern "C" fn negwafir_judge(s: u32, h: i64, z: i64, m: i32, n: i32) -> Judgement
    ensures { JudgedAs s h z m n result.refusal.number result.refusal.place result.verdict }
{
    exports::negwafir_judge(s, h, z, m, n)
}

#[unsafe(no_mangle)]
pub extern "C" fn negwafir_locate(
    s: u32,
    knots: &[i32],
    values: &[i32],
    slopes: &[i32],
    position: i32,
) -> Place
    ensures { Located (table s knots.now values.now slopes.now) position result.refusal.number result.refusal.place result.piece }
{
    exports::negwafir_locate(s, knots, values, slopes, position)
}

#[unsafe(no_mangle)]
pub extern "C" fn negwafir_evaluate(
    s: u32,
    knots: &[i32],
    values: &[i32],
    slopes: &[i32],
    position: i32,
) -> Value
    ensures { Evaluated (table s knots.now values.now slopes.now) position result.refusal.number result.refusal.place result.value }
{
    exports::negwafir_evaluate(s, knots, values, slopes, position)
}

#[unsafe(no_mangle)]
pub extern "C" fn negwafir_float_answer(
    s: u32,
    knots: &[i32],
    values: &[i32],
    slopes: &[i32],
    position: i32,
) -> Told
    ensures { DrivenAs (table s knots.now values.now slopes.now) position result.refusal.number result.refusal.place result.kind result.left result.numerator result.denominator }
{
    exports::negwafir_float_answer(s, knots, values, slopes, position)
}
