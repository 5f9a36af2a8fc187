// The table of a curve: a slope unit and three lists, of which entry i belongs to point i, and why one is refused. Piece i runs from point i to point i + 1.
#![tactic(auto)]

mod changed;
mod good;
mod pieces;
mod refusals;
mod search;
mod within;

pub use changed::Change;
pub use good::GoodPoints;
pub use pieces::step;
pub use refusals::{changed_points, check, points};

// The number of a slope unit and three lists, as they are lent: slopes are in units of 1/2^s of a value per count.
#[derive(Clone, Copy)]
pub struct Table<'a> {
    pub s: u32,
    pub knots: &'a [i32],
    pub values: &'a [i32],
    pub slopes: &'a [i32],
}
