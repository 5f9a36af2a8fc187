// A change of one point of a table. The lists come one by one and not as a `Table`, which lends all three to be read only.
#![tactic(auto)]

ghost use Rattle.rules.specs.Causes.{number, place};
ghost use Rattle.table.specs.Table.{table};
ghost use Rattle.change.specs.Change.{Changed};

mod beside;

use rules::Refused;
use table::{Change, GoodPoints, Table};

// Gives a point another knot and another value, gives the slopes that depend on it what a build of the new points gives them in the same unit, whatever they were, and changes no other
// entry; or refuses by the first cause, in the order 12, 1, 2, 7, 3, 4, at its first place, and leaves the lists as they were. 3 and 4 are asked of the points as they
// would be.
pub fn point(
    s: u32,
    knots: &mut [i32],
    values: &mut [i32],
    slopes: &mut [i32],
    change: Change,
) -> Result<(), Refused>
    ensures { Changed change (table s knots.old values.old slopes.old) (table s knots.new values.new slopes.new) (number result) (place result) }
{
    table::changed_points(
        Table {
            s,
            knots,
            values,
            slopes,
        },
        change,
    )?;
    knots[change.point] = change.knot;
    values[change.point] = change.value;
    let points = GoodPoints { knots, values };
    beside::renew(rules::unit(s), points, slopes, change.point);
    Ok(())
}
