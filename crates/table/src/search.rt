// The one search for a faulty piece. It asks several causes of each piece, so that a table without a fault is gone over once; up to which one, and of which points, is a case, so that
// there is one search and one proof.
ghost use Rattle.std.specs.Prelude.{◌≡◌, ◌-◌, ◌<◌, ◌-ℤ◌, length};
ghost use Rattle.integers.specs.Within.{Within};
ghost use Rattle.rules.specs.Causes.{number, place};
ghost use Rattle.rules.specs.Limits.{UnitWithin};
ghost use Rattle.rules.specs.Refusals.{Given};
ghost use Rattle.table.specs.Held.{held};
ghost use Rattle.table.specs.Table.{SameLengths, Holds};
ghost use Rattle.table.specs.Search.{fault_number, cause_of, one_before, found_number, found_in, found_at, knots_of, values_of, asked, numbers, SlopeFor, EndAt, Scanned};
ghost use Rattle.table.specs.Fault.{FaultOf};

use crate::changed::Change;
use crate::{Table, changed, pieces};
use rules::{Cause, Extent, Refused, SlopeUnit};

// What can be wrong with a piece, in the order in which it is asked.
#[derive(Clone, Copy)]
pub(crate) enum Fault {
    Width,
    Rise,
    Bend,
}

// A faulty piece, and what is wrong with it.
#[derive(Clone, Copy)]
struct Found {
    fault: Fault,
    piece: usize,
}

// A point as the search asks it, the end of one piece and the start of the next. Knot and value are widened, so that their differences fit.
#[derive(Clone, Copy)]
struct End {
    knot: i64,
    value: i64,
    slope: i32,
}

// What is asked before a fault, if anything is.
fn before(fault: Fault) -> Option<Fault>
    ensures { result ≡ one_before fault }
{
    match fault {
        Fault::Width => None,
        Fault::Rise => Some(Fault::Width),
        Fault::Bend => Some(Fault::Rise),
    }
}

fn cause(fault: Fault) -> Cause
    ensures { result ≡ cause_of fault }
{
    match fault {
        Fault::Width => Cause::Width,
        Fault::Rise => Cause::Rise,
        Fault::Bend => Cause::Bend,
    }
}

// The slope at point i where a bend is asked for; else no slope is read.
fn slope(last: Fault, slopes: &[i32], i: usize) -> i32
    requires { i < length slopes.now }
    ensures { SlopeFor (fault_number last) slopes.now i result }
{
    match last {
        Fault::Bend => slopes[i],
        _ => 0,
    }
}

// Point i, as it is, or as it would be after a change.
fn end_at(table: Table<'_>, change: Option<Change>, last: Fault, i: usize) -> End
    requires same_lengths { SameLengths table.knots.now table.values.now table.slopes.now }
    requires i_in_bounds { i < length table.knots.now }
    ensures { EndAt (knots_of change table.entry.knots.now) (values_of change table.entry.values.now) table.entry.slopes.now (fault_number last) i result.knot result.value result.slope }
{
    let slope = slope(last, table.slopes, i);
    match change {
        None => End {
            knot: pieces::entry(table.knots, i),
            value: pieces::entry(table.values, i),
            slope,
        },
        Some(c) => End {
            knot: changed::entry(table.knots, c.point, c.knot, i),
            value: changed::entry(table.values, c.point, c.value, i),
            slope,
        },
    }
}

// The first fault, up to `last`, of the piece between two points, with slopes in 1/unit. A bend is asked for only where the piece is within the limits.
fn first_fault(unit: SlopeUnit, last: Fault, left: End, right: End) -> Option<Fault>
    requires knots { Within 2147483648 left.knot × Within 2147483648 right.knot }
    requires values { Within 2147483648 left.value × Within 2147483648 right.value }
    ensures { FaultOf unit.size (fault_number last) (right.knot -ℤ left.knot) (right.value -ℤ left.value) left.slope right.slope (found_number result) }
{
    let h = right.knot - left.knot;
    if !rules::width_within(h) {
        return Some(Fault::Width);
    }
    if let Fault::Width = last {
        return None;
    }
    let z = right.value - left.value;
    if !rules::rise_within(z) {
        return Some(Fault::Rise);
    }
    if let Fault::Rise = last {
        return None;
    }
    if !piece::is_monotone(unit, Extent { h, z }, left.slope, right.slope) {
        return Some(Fault::Bend);
    }
    None
}

// The first piece, `from` or after it, that has a fault up to `last`, with the first of its faults: the loop leaves with its number. A piece's right end is carried along as the
// next one's left, and the slope unit is worked out once. It is made part of each caller, where `change` and `last` are known, so that no piece asks which they are.
#[inline(always)]
fn scan(table: Table<'_>, change: Option<Change>, last: Fault, from: usize) -> Option<Found>
    requires unit_within { UnitWithin table.s }
    requires same_lengths { SameLengths table.knots.now table.values.now table.slopes.now }
    requires from_in_bounds { from < length table.knots.now }
    ensures { Scanned (Holds (asked change (held table.entry))) (fault_number last) from (found_in result) (found_at result) }
{
    let unit = rules::unit(table.s);
    let mut left = end_at(table, change, last, from);
    let mut i = from;
    let (piece, fault) = loop {
        if table.knots.len() - i < 2 {
            return None;
        }
        let right = end_at(table, change, last, i + 1);
        if let Some(fault) = first_fault(unit, last, left, right) {
            break (i, fault);
        }
        left = right;
        i += 1;
    };
    Some(Found { fault, piece })
}

// The refusal by the first of the causes of a piece, up to `last`, that holds, at the first piece of which it does. Behind a faulty piece only what is asked before its fault is asked.
// It is made part of each caller for the sake of `scan`.
#[inline(always)]
pub(crate) fn first(table: Table<'_>, change: Option<Change>, last: Fault) -> Result<(), Refused>
    requires unit_within { UnitWithin table.s }
    requires same_lengths { SameLengths table.knots.now table.values.now table.slopes.now }
    requires knots_nonzero { 0 < length table.knots.now }
    ensures { Given (Holds (asked change (held table.entry))) (numbers 3 (fault_number last - 2)) (number result) (place result) }
{
    let Some(mut found) = scan(table, change, last, 0) else {
        return Ok(());
    };
    while let Some(earlier) = before(found.fault) {
        let Some(nearer) = scan(table, change, earlier, found.piece + 1) else {
            break;
        };
        found = nearer;
    }
    Err(Refused {
        cause: cause(found.fault),
        place: found.piece,
    })
}
