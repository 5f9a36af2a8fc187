// The lists of the workbench: the numbers that a line has for one, and a list as a row of text. No function asks anything of its caller.
#![tactic(auto)]

mod numbers;
mod row;

pub use numbers::{ROOM, set};
pub use row::append_row;
