// The slopes of a whole table. The lists come one by one and not as a `Table`, which lends all three to be read only.
ghost use Rattle.rules.specs.Causes.{number, place};
ghost use Rattle.table.specs.Table.{table};
ghost use Rattle.slopes.specs.Slopes.{Built};

use crate::{point, run};
use rules::Refused;
use table::{GoodPoints, Table};

// Builds the slopes of the points into `slopes`, in 1/2^s of a value per count, whatever it held; or refuses by the first cause, in the order 12, 1, 2, 3, 4, at its first place, and writes
// nothing.
pub fn build(s: u32, knots: &[i32], values: &[i32], slopes: &mut [i32]) -> Result<(), Refused>
    ensures { Built (table s knots.now values.now slopes.old) slopes.new (number result) (place result) }
{
    table::points(Table {
        s,
        knots,
        values,
        slopes,
    })?;
    // The ends by `renew`, whatever their rule looks at; all others are inner points.
    let unit = rules::unit(s);
    let points = GoodPoints { knots, values };
    let n = knots.len();
    point::renew(unit, points, slopes, 0, 1);
    run::inner(unit, points, slopes);
    point::renew(unit, points, slopes, n - 1, n);
    Ok(())
}
