// The sampling program: it holds the points (0, 0) and (3, -10), builds their slopes, and prints the value of the curve at each position.
// Slopes are in 1/2^8 of a value per count.
#![tactic(auto)]

use table::Table;

const S: u32 = 8;

const KNOTS: [i32; 2] = [0, 3];

const VALUES: [i32; 2] = [0, -10];

const POSITIONS: [i32; 4] = [0, 1, 2, 3];

// The text is put together first and written by one call: it stands there as a whole, or standard error says why it does not.
fn main(rt: HostRuntime) {
    let mut slopes = [0i32; 2];
    let Ok(()) = slopes::build(S, &KNOTS, &VALUES, &mut slopes) else {
        let _ = eprintln!(rt; "sample: the points are refused");
        return;
    };
    let table = Table {
        s: S,
        knots: &KNOTS,
        values: &VALUES,
        slopes: &slopes,
    };
    let mut space = [0u8; 256];
    let n = rows(&rt, &mut space, table);
    if let Err(error) = rt.write_all(words::part(&space, 0, n)) {
        let _ = eprintln!(rt; "sample: standard output: {error}");
    }
}

// A row of names, and below it one for each position; it answers how many bytes they are. A position that is refused has no row.
fn rows(rt: &impl Eprint, into: &mut [u8], table: Table<'_>) -> usize {
    let mut n = words::append(into, 0, b"position,value\n");
    for position in POSITIONS {
        match curve::evaluate(table, position) {
            Ok(value) => n = row(into, n, position, value),
            Err(_) => {
                let _ = eprintln!(rt; "sample: a position is refused");
            }
        }
    }
    n
}

// `position,value`, behind the `held` bytes of a text.
fn row(into: &mut [u8], held: usize, position: i32, value: i32) -> usize {
    let n = decimals::append_whole32(into, held, position);
    let n = words::append(into, n, b",");
    let n = decimals::append_whole32(into, n, value);
    words::append(into, n, b"\n")
}
