// Calls of the libraries with what the workbench never gives them, or whose answer it does not show. It prints a line for each: the function, what it was given, and
// what it answered. Every line, or part of one, is a template that is filled in and written at once.
#![tactic(auto)]

ghost use Rattle.std.specs.Prelude.{◌≤◌, ◌<◌, length};

use answers::Signed;
use decimals::NotNumber;
use drive::Answer;
use exports::{Refusal, Told};
use rules::Refused;
use table::Table;

// A table with slopes in 1/2^8 of a value per count.
const S: u32 = 8;

const KNOTS: [i32; 3] = [0, 2, 5];

const VALUES: [i32; 3] = [7, 9, 9];

const SLOPES: [i32; 3] = [256, 0, 0];

// Positions in that table and outside.
const POSITIONS: [i32; 5] = [0, 2, 5, 6, -1];

// Values with which the first piece bends.
const BEND: [i32; 3] = [9, 7, 7];

// A table that is accepted where a slope is a whole value, and in every finer unit too, and has other values there.
const UNLIKE_KNOTS: [i32; 3] = [0, 3, 5];

const UNLIKE_VALUES: [i32; 3] = [7, 17, 17];

const UNLIKE_SLOPES: [i32; 3] = [10, 0, 0];

// Fewer slopes than points.
const FEWER: [i32; 2] = [10, 0];

// What C is told that the drive does, by the kinds that `exports` has for it.
const DWELLS: u32 = 0;

const MOVES: u32 = 1;

// The same as text, entry by entry. No entry has the last number, so that its text is empty: that of a kind that there is not.
const TELLINGS: &[u8] = b"move\ndwell\ndwell at 0\ndwell at -0";

const MOVE: usize = 0;

const DWELL: usize = 1;

const DWELL_AT_0: usize = 2;

const DWELL_AT_MINUS_0: usize = 3;

const NO_TELLING: usize = 4;

// 2^62.
const HALF: i64 = 1 << 62;

fn main(rt: HostRuntime) {
    quotients(&rt);
    nearests(&rt);
    texts(&rt);
    tables(&rt);
    units(&rt);
    pieces(&rt);
}

// ---- integers

fn quotients(rt: &(impl Print + Eprint)) {
    let pairs = [
        (7, 1),
        (7, 0),
        (-7, 0),
        (7, -2),
        (-1, 4),
        (-9, 4),
        (i64::MIN, 1),
        (i64::MIN, -1),
    ];
    for (n, d) in pairs {
        let q = integers::floor_div(n, d);
        write(rt, b"floor_div # # #\n", b"", &[n, d, q].map(Signed::from));
    }
}

// Numbers around 0, 2^62 and the ends of 64 bits, by odd and even numbers, and by some that are not positive.
fn nearests(rt: &(impl Print + Eprint)) {
    let numbers = [
        -3,
        -2,
        -1,
        0,
        1,
        2,
        3,
        7,
        -HALF - 2,
        -HALF - 1,
        -HALF,
        -HALF + 1,
        HALF - 2,
        HALF - 1,
        HALF,
        HALF + 1,
        i64::MIN,
        i64::MIN + 1,
        i64::MAX - 1,
        i64::MAX,
    ];
    let divisors = [1, 2, 3, 4, 5, i64::MAX - 1, i64::MAX, 0, -1, -2, i64::MIN];
    for n in numbers {
        for d in divisors {
            let q = integers::nearest_div(n, d);
            write(
                rt,
                b"nearest_div # # #\n",
                b"",
                &[n, d, q].map(Signed::from),
            );
        }
    }
}

// ---- words and decimals

fn texts(rt: &(impl Print + Eprint)) {
    finds(rt, b"abc");
    next_words(rt);
    counts(rt, b"ab c");
    parts(rt, b"abc");
    reads(rt);
    appends(rt, b"abc");
}

fn finds(rt: &(impl Print + Eprint), bytes: &[u8]) {
    for (from, byte) in [(0, b'c'), (0, b'x'), (5, b'a')] {
        let found = words::find(bytes, from, byte);
        write(
            rt,
            b"find '$' # # #\n",
            bytes,
            &[natural(from), natural(byte as usize), natural(found)],
        );
    }
}

fn next_words(rt: &(impl Print + Eprint)) {
    for (line, from) in [
        (b"ab".as_slice(), 0),
        (b" ab c".as_slice(), 2),
        (b"ab ".as_slice(), 2),
    ] {
        match words::next_word(line, from) {
            Some(word) => write(
                rt,
                b"next_word '$' # # #\n",
                line,
                &[natural(from), natural(word.start), natural(word.end)],
            ),
            None => write(rt, b"next_word '$' # nothing\n", line, &[natural(from)]),
        }
    }
}

fn counts(rt: &(impl Print + Eprint), line: &[u8]) {
    for from in [0, 1, 9] {
        write(
            rt,
            b"count '$' # #\n",
            line,
            &[natural(from), natural(words::count(line, from))],
        );
    }
}

fn parts(rt: &(impl Print + Eprint), line: &[u8]) {
    for (start, end) in [(1, 2), (1, 4), (1, 9), (2, 1), (5, 7)] {
        write(rt, b"part '$' # # ", line, &[natural(start), natural(end)]);
        write(rt, b"$\n", words::part(line, start, end), &[]);
    }
}

fn reads(rt: &(impl Print + Eprint)) {
    for text in [b"".as_slice(), b"-".as_slice()] {
        write(rt, b"whole '$' ", text, &[]);
        match decimals::whole(text) {
            Ok(n) => write(rt, b"#\n", b"", &[Signed::from(n)]),
            Err(NotNumber::NotDecimal) => write(rt, b"no number\n", b"", &[]),
            Err(NotNumber::TooLarge) => write(rt, b"too large\n", b"", &[]),
        }
    }
}

// To a buffer of four bytes, of which so many are held.
fn appends(rt: &(impl Print + Eprint), more: &[u8]) {
    for held in [0, 1, 2, 3, 4, 6] {
        let mut four = [b'.'; 4];
        let n = words::append(&mut four, held, more);
        write(rt, b"append '$' # #\n", &four, &[natural(held), natural(n)]);
    }
}

// ---- tables, each line with the slope unit's number first, at positions in them and outside

fn tables(rt: &(impl Print + Eprint)) {
    let table = Table {
        s: S,
        knots: &KNOTS,
        values: &VALUES,
        slopes: &SLOPES,
    };
    asked(rt, table);
    let bent = Table {
        s: S,
        knots: &KNOTS,
        values: &BEND,
        slopes: &SLOPES,
    };
    at(rt, bent, 3);
}

// In two units that are good and in two that are refused, which is asked before the lengths.
fn units(rt: &(impl Print + Eprint)) {
    for s in [0, 4, 9, u32::MAX] {
        for slopes in [UNLIKE_SLOPES.as_slice(), FEWER.as_slice()] {
            let table = Table {
                s,
                knots: &UNLIKE_KNOTS,
                values: &UNLIKE_VALUES,
                slopes,
            };
            asked(rt, table);
        }
    }
}

fn asked(rt: &(impl Print + Eprint), table: Table<'_>) {
    done(rt, b"points # # #\n", table.s, table::points(table));
    done(rt, b"check # # #\n", table.s, table::check(table));
    for position in POSITIONS {
        at(rt, table, position);
    }
}

fn done(rt: &(impl Print + Eprint), template: &[u8], s: u32, done: Result<(), Refused>) {
    let (cause, place) = refusal(done.err());
    write(rt, template, b"", &[natural(s as usize), cause, place]);
}

// The refusal's number and place stand behind the position, and then what is answered.
fn at(rt: &(impl Print + Eprint), table: Table<'_>, position: i32) {
    placed(rt, b"locate # ", table.s, position);
    located(rt, table, position);
    placed(rt, b"evaluate # ", table.s, position);
    valued(rt, table, position);
    placed(rt, b"float_answer # ", table.s, position);
    driven(rt, table, position);
}

fn placed(rt: &(impl Print + Eprint), template: &[u8], s: u32, position: i32) {
    write(rt, template, b"", &[natural(s as usize)]);
    write(rt, b"# ", b"", &[Signed::from(position)]);
}

// ---- what is answered in a table at a position: the refusal by the Rattle function, and behind it the piece, the value or what the drive is told by the function for C, which answers
// one where it refuses too. So that both stand behind the line, a line more says where they differ.

fn located(rt: &(impl Print + Eprint), table: Table<'_>, position: i32) {
    let piece = position::locate(table, position);
    let (cause, place) = refusal(piece.err());
    let crossed = exports::negwafir_locate(
        table.s,
        table.knots,
        table.values,
        table.slopes,
        position,
    );
    write(rt, b"# # #\n", b"", &[cause, place, natural(crossed.piece)]);
    compare(
        rt,
        is_refusal(piece.err(), crossed.refusal) && piece.unwrap_or(0) == crossed.piece,
    );
}

fn valued(rt: &(impl Print + Eprint), table: Table<'_>, position: i32) {
    let value = curve::evaluate(table, position);
    let (cause, place) = refusal(value.err());
    let crossed = exports::negwafir_evaluate(
        table.s,
        table.knots,
        table.values,
        table.slopes,
        position,
    );
    write(rt, b"# # ", b"", &[cause, place]);
    write(rt, b"#\n", b"", &[Signed::from(crossed.value)]);
    compare(
        rt,
        is_refusal(value.err(), crossed.refusal) && value.unwrap_or(0) == crossed.value,
    );
}

fn driven(rt: &(impl Print + Eprint), table: Table<'_>, position: i32) {
    let answer = drive::float_answer(table, position);
    let (cause, place) = refusal(answer.err());
    let told = exports::negwafir_float_answer(
        table.s,
        table.knots,
        table.values,
        table.slopes,
        position,
    );
    let text = answers::entry(TELLINGS, telling(told));
    write(rt, b"# # $\n", text, &[cause, place]);
    compare(
        rt,
        is_refusal(answer.err(), told.refusal)
            && is_told(answer.unwrap_or(Answer::Dwell(0.0)), told),
    );
}

fn telling(told: Told) -> usize {
    match told.kind {
        DWELLS => dwelling(told.left),
        MOVES => MOVE,
        _ => NO_TELLING,
    }
}

// 0 has its sign: −0 is no less than 0, but 1 over it is.
fn dwelling(level: f64) -> usize {
    if level != 0.0 {
        return DWELL;
    }
    if 1.0 / level < 0.0 {
        return DWELL_AT_MINUS_0;
    }
    DWELL_AT_0
}

fn compare(rt: &(impl Print + Eprint), alike: bool) {
    if !alike {
        write(rt, b"and C is answered otherwise\n", b"", &[]);
    }
}

// Whether a refusal, or none, has crossed to C as what it is: none is 0 at place 0.
fn is_refusal(refused: Option<Refused>, crossed: Refusal) -> bool {
    match refused {
        Some(refused) => {
            crossed.number == refused.cause.number() && crossed.place == refused.place
        }
        None => crossed.number == 0 && crossed.place == 0,
    }
}

// Whether an answer has crossed as what it is: a dwell has 0 above and 1 below.
fn is_told(answer: Answer, told: Told) -> bool {
    let (kind, left, numerator, denominator) = match answer {
        Answer::Dwell(level) => (DWELLS, level, 0.0, 1.0),
        Answer::Move(floats) => (MOVES, floats.left, floats.numerator, floats.denominator),
    };
    told.kind == kind
        && is_same(told.left, left)
        && is_same(told.numerator, numerator)
        && is_same(told.denominator, denominator)
}

// By its sign too where it is 0: 1 over it has that.
fn is_same(one: f64, other: f64) -> bool {
    one == other && 1.0 / one == 1.0 / other
}

// ---- every position of level tables of several lengths. Their widths are 1, 2 and 3 in turn, so that each is a knot, or beside one, or outside

fn pieces(rt: &(impl Print + Eprint)) {
    let mut knots = [0i32; 1024];
    for i in 0..1024 {
        knots[i] = knot(i);
    }
    let level = [0i32; 1024];
    for points in [2, 3, 4, 5, 31, 32, 33, 1023, 1024] {
        pieces_of(rt, &knots[..points], &level[..points]);
    }
}

// From 1 on, so that the position before it is 0.
fn knot(i: usize) -> i32
    requires { i < 1024 }
{
    let turn = i % 3;
    (1 + i / 3 * 6 + turn + turn / 2) as i32
}

// What is answered in the table of these knots at each position, to C alone, as these are many.
fn pieces_of(rt: &(impl Print + Eprint), knots: &[i32], level: &[i32])
    requires { length knots.now ≤ 1024 }
{
    let points = natural(knots.len());
    for position in 0..=2 * knots.len() as i32 {
        write(rt, b"locate # ", b"", &[Signed::from(position)]);
        write(rt, b"of # points ", b"", &[points]);
        let crossed = exports::negwafir_locate(S, knots, level, level, position);
        write(
            rt,
            b"# # #\n",
            b"",
            &[
                natural(crossed.refusal.number as usize),
                natural(crossed.refusal.place),
                natural(crossed.piece),
            ],
        );
    }
}

// ---- what is written

// The number of a refusal's cause and its place, and 0 at place 0 for none.
fn refusal(refused: Option<Refused>) -> (Signed, Signed) {
    match refused {
        Some(refused) => (
            natural(refused.cause.number() as usize),
            natural(refused.place),
        ),
        None => (natural(0), natural(0)),
    }
}

fn natural(n: usize) -> Signed {
    Signed::from(n as u64)
}

fn write(rt: &(impl Print + Eprint), template: &[u8], text: &[u8], numbers: &[Signed]) {
    let mut space = [0u8; 256];
    let n = answers::fill(&mut space, 0, template, text, numbers);
    if let Err(error) = rt.write_all(words::part(&space, 0, n)) {
        let _ = eprintln!(rt; "calls: standard output: {error}");
    }
}
