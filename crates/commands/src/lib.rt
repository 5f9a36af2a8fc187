// What a line of the workbench asks for: its command with its numbers, or what is wrong with it. Nothing is done here, and no function asks anything of its caller.
#![tactic(auto)]

mod numbers;
mod parsing;

pub use parsing::parse;

// The three lists of the workbench.
#[derive(Clone, Copy, PartialEq, Eq)]
pub enum List {
    Knots,
    Values,
    Slopes,
}

// The width and the rise of a piece, and the slopes at its ends.
#[derive(Clone, Copy, PartialEq, Eq)]
pub struct Piece {
    pub h: i64,
    pub z: i64,
    pub m: i32,
    pub n: i32,
}

// A point by its number, of which a table need not have one, and the knot and the value that it is to have.
#[derive(Clone, Copy, PartialEq, Eq)]
pub struct Point {
    pub number: i64,
    pub knot: i32,
    pub value: i32,
}

// What is wrong with a line. A number is named by its place among the words after the command, from 1. `BeyondUnsigned`: it is not in 0 to 4294967295.
#[derive(Clone, Copy, PartialEq, Eq)]
pub enum Fault {
    TooLong,
    NoCommand,
    TooFew,
    TooMany,
    NoList,
    NotDecimal(usize),
    Beyond32(usize),
    Beyond64(usize),
    BeyondUnsigned(usize),
}

// A line without a command asks for nothing, as a comment does, and is no fault. A line may set the slope unit to any number of 32 bits without a sign: only a table refuses one.
#[derive(Clone, Copy, PartialEq, Eq)]
pub enum Command {
    Nothing,
    Set(List),
    Show(List),
    Piece(Piece),
    Build,
    Check,
    At(i32),
    Drive(i32),
    Change(Point),
    SetUnit(u32),
    ShowUnit,
}
