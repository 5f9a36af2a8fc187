// The value of a table's curve at a position.
#![tactic(auto)]

ghost use Rattle.std.specs.Prelude.{◌≡◌, ◌+ℤ◌, pos};
ghost use Rattle.cubic.specs.Value.{risen};
ghost use Rattle.rules.specs.Causes.{number, place, answer_or};
ghost use Rattle.table.specs.Held.{held};
ghost use Rattle.curve.specs.Curve.{Evaluated};

mod rise;

use position::Inside;
use rules::Refused;
use table::Table;

// The value in a piece: the left value, and what the curve has risen by since. It lies between the piece's two values, so that it fits.
fn value_on(at: Inside) -> i32
    ensures { result ≡ at.spot.left +ℤ risen at.unit.size at.spot.h at.spot.z at.spot.m at.spot.n at.spot.t }
{
    let risen = rise::risen(at);
    ((at.spot.left as i64) + risen) as i32
}

// The value of the curve at a position, rounded to the nearest whole number, a half going up, or the refusal, in the order 12, 1, 2, 3, 4, 5, 6: the whole table
// is checked first, whatever slopes it has and wherever the position lies.
pub fn evaluate(table: Table<'_>, position: i32) -> Result<i32, Refused>
    ensures { Evaluated (held table.entry) position (number result) (place result) (answer_or (pos 0) result) }
{
    Ok(value_on(position::find(table, position)?))
}
