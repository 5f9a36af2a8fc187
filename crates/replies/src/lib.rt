// The line that each answer of the workbench is written as. No function asks anything of its caller.
#![tactic(auto)]

mod writing;
mod written;

use drive::Answer;
use piece::Verdict;
use rules::Refused;
pub use writing::append_reply;

// What is answered to a line: nothing; the number of a line that is wrong, and what is wrong with it; that it is done, or its refusal; how many numbers a list
// has; a verdict on a piece, a value, or what a drive is told, or the refusal; the slope unit. The libraries' answers are taken as they are.
// And a refusal by its number and its place: the number may be any, also one that no cause has, and then the cause is empty.
#[derive(Clone, Copy)]
pub enum Reply {
    Silent,
    Wrong(u64, commands::Fault),
    Done(Result<(), Refused>),
    Count(usize),
    Judged(Result<Verdict, Refused>),
    Valued(Result<i32, Refused>),
    Driven(Result<Answer, Refused>),
    SlopeUnit(u32),
    Numbered(u32, usize),
}
