// Why a table is refused: 12 for its slope unit, 1, 2, 3, 4 for its points, and 5 for its slopes, in this order; and why a change of a point is: 12, 1, 2, 7, 3, 4.
ghost use Rattle.rules.specs.Causes.{number, place};
ghost use Rattle.rules.specs.Refusals.{Given};
ghost use Rattle.table.specs.Held.{held};
ghost use Rattle.table.specs.Table.{Holds, outline_order, build_order, check_order};
ghost use Rattle.table.specs.WouldBe.{HoldsAfter, change_order};

use crate::changed::Change;
use crate::search::Fault;
use crate::{Table, search, within};
use rules::{Cause, Refused};

// 12, 1 and 2: the slope unit, the lists' lengths, and the number of points.
fn outline(table: Table<'_>) -> Result<(), Refused>
    ensures { Given (Holds (held table.entry)) outline_order (number result) (place result) }
{
    let n = table.knots.len();
    if !rules::unit_within(table.s) {
        return Err(Refused::by(Cause::SlopeUnit));
    }
    if table.values.len() != n || table.slopes.len() != n {
        return Err(Refused::by(Cause::Lengths));
    }
    if !rules::count_within(n) {
        return Err(Refused::by(Cause::Count));
    }
    Ok(())
}

// 12, 1, 2, 3 and 4: what is asked of the points. The slopes are counted and not read. A faulty piece is searched for only where there is one.
pub fn points(table: Table<'_>) -> Result<(), Refused>
    ensures { Given (Holds (held table.entry)) build_order (number result) (place result) }
{
    outline(table)?;
    if within::all(table.knots, table.values, 0, table.knots.len() - 1) {
        return Ok(());
    }
    search::first(table, None, Fault::Rise)
}

// 12, 1, 2, 3, 4 and 5: the table check, of any proposed slopes.
pub fn check(table: Table<'_>) -> Result<(), Refused>
    ensures { Given (Holds (held table.entry)) check_order (number result) (place result) }
{
    outline(table)?;
    search::first(table, None, Fault::Bend)
}

// 12, 1, 2, 7, 3 and 4: what is asked of a change, 3 and 4 of the points as they would be after it. The slopes are counted and not read. A faulty piece is searched
// for only where there is one.
pub fn changed_points(table: Table<'_>, change: Change) -> Result<(), Refused>
    ensures { Given (HoldsAfter change (held table.entry)) change_order (number result) (place result) }
{
    outline(table)?;
    if table.knots.len() <= change.point {
        return Err(Refused::by(Cause::Point));
    }
    if within::all_after(change, table.knots, table.values) {
        return Ok(());
    }
    search::first(table, Some(change), Fault::Rise)
}
