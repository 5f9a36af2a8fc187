// A table: why it is refused, its slopes, and a change of one point.
ghost use Rattle.rules.specs.Refusals.{Given};
ghost use Rattle.table.specs.Table.{table, Holds, build_order, check_order};
ghost use Rattle.table.specs.WouldBe.{HoldsAfter, change_order};
ghost use Rattle.slopes.specs.Slopes.{Built};
ghost use Rattle.change.specs.Change.{Changed};

use crate::records::{Refusal, settled};
use table::{Change, Table};

pub fn negwafir_points(s: u32, knots: &[i32], values: &[i32], slopes: &[i32]) -> Refusal
    ensures { Given (Holds (table s knots.now values.now slopes.now)) build_order result.number result.place }
{
    settled(table::points(Table {
        s,
        knots,
        values,
        slopes,
    }))
}

pub fn negwafir_check(s: u32, knots: &[i32], values: &[i32], slopes: &[i32]) -> Refusal
    ensures { Given (Holds (table s knots.now values.now slopes.now)) check_order result.number result.place }
{
    settled(table::check(Table {
        s,
        knots,
        values,
        slopes,
    }))
}

pub fn negwafir_changed_points(
    s: u32,
    knots: &[i32],
    values: &[i32],
    slopes: &[i32],
    change: Change,
) -> Refusal
    ensures { Given (HoldsAfter change (table s knots.now values.now slopes.now)) change_order result.number result.place }
{
    let table = Table {
        s,
        knots,
        values,
        slopes,
    };
    settled(table::changed_points(table, change))
}

pub fn negwafir_build(s: u32, knots: &[i32], values: &[i32], slopes: &mut [i32]) -> Refusal
    ensures { Built (table s knots.now values.now slopes.old) slopes.new result.number result.place }
{
    settled(slopes::build(s, knots, values, slopes))
}

pub fn negwafir_change_point(
    s: u32,
    knots: &mut [i32],
    values: &mut [i32],
    slopes: &mut [i32],
    change: Change,
) -> Refusal
    ensures { Changed change (table s knots.old values.old slopes.old) (table s knots.new values.new slopes.new) result.number result.place }
{
    settled(change::point(s, knots, values, slopes, change))
}
