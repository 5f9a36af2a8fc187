// Where a position lies: the piece that it belongs to, once the whole table is accepted, or why there is none.
#![tactic(auto)]

ghost use Rattle.std.specs.Prelude.{◌≡◌, ◌<◌, length};
ghost use Rattle.integers.specs.Promise.{Decided};
ghost use Rattle.rules.specs.Causes.{number, place, answer_or};
ghost use Rattle.table.specs.Held.{held};
ghost use Rattle.position.specs.Position.{WithinKnots, Belongs, Located};
ghost use Rattle.position.specs.Spot.{SpotOn, SoughtIn};
ghost use Rattle.position.specs.Inside.{FoundAt};

mod halving;
mod inside;

pub use inside::Inside;
use rules::{Cause, Refused};
use table::{GoodPoints, Table};

// A position in its piece: the piece's number, left value, width, rise and slopes, and the counts from its left knot to the position.
#[derive(Clone, Copy, PartialEq, Eq)]
pub struct Spot {
    pub piece: usize,
    pub left: i32,
    pub h: i64,
    pub z: i64,
    pub m: i32,
    pub n: i32,
    pub t: i64,
}

// Whether a position lies from the first knot to the last.
fn within(knots: &[i32], position: i32) -> bool
    requires { 1 < length knots.now }
    ensures { Decided (WithinKnots knots.now position) result }
{
    knots[0] <= position && position <= knots[knots.len() - 1]
}

// Where a position is in piece i, which it belongs to. The rise is taken of the two values, and not by `GoodPoints::piece`: that the right one fits in 32 bits is answered, too.
fn spot_on(points: GoodPoints<'_>, slopes: &[i32], i: usize, position: i32) -> Spot
    requires slopes_len { length slopes.now ≡ length points.knots.now }
    requires belongs { Belongs points.knots.now position i }
    ensures { SpotOn points.entry.knots.now points.entry.values.now slopes.now result.piece position result.left result.h result.z result.m result.n result.t }
{
    let left = points.values[i];
    Spot {
        piece: i,
        left,
        h: table::step(points.knots, i),
        z: integers::difference(left, points.values[i + 1]),
        m: slopes[i],
        n: slopes[i + 1],
        t: integers::difference(points.knots[i], position),
    }
}

// Where a position lies among good points, if it is not outside their knots. What is asked of the table is asked before, once for any number of positions; the slopes are read, and need not be good.
pub fn seek(points: GoodPoints<'_>, slopes: &[i32], position: i32) -> Option<Spot>
    requires { length slopes.now ≡ length points.knots.now }
    ensures { SoughtIn points.entry.knots.now points.entry.values.now slopes.now position result }
{
    if within(points.knots, position) {
        let piece = halving::piece(points.knots, position);
        Some(spot_on(points, slopes, piece, position))
    } else {
        None
    }
}

// Where a position lies in a table, or the refusal, in the order 12, 1, 2, 3, 4, 5, 6: the whole table is checked first, wherever the position lies. It is made part of
// each caller, so that what it finds crosses in no record.
#[inline(always)]
pub fn find(table: Table<'_>, position: i32) -> Result<Inside, Refused>
    ensures { FoundAt (held table.entry) position result }
{
    table::check(table)?;
    let points = GoodPoints {
        knots: table.knots,
        values: table.values,
    };
    let Some(spot) = seek(points, table.slopes, position) else {
        return Err(Refused::by(Cause::Position));
    };
    Ok(Inside {
        unit: rules::unit(table.s),
        spot,
    })
}

// The piece that the position belongs to, or the refusal, in the same order.
pub fn locate(table: Table<'_>, position: i32) -> Result<usize, Refused>
    ensures { Located (held table.entry) position (number result) (place result) (answer_or 0 result) }
{
    Ok(find(table, position)?.spot.piece)
}
