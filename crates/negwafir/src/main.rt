// The workbench: reads a command a line from standard input, and writes an answer a line to standard output.
#![tactic(auto)]

mod desk;
mod feed;
mod row;
mod say;

use desk::Desk;
use feed::Feed;
use std::fmt;
use std::fmt::{Display, Formatter, Write};
use std::io::Error;

// What ends a run before its input does: what could not be read or written, and why.
#[derive(Drop)]
enum Failure {
    Input(Error),
    Output(Error),
}

impl Display for Failure {
    fn fmt<W: Write>(&self, f: &mut Formatter<W>) -> fmt::Result {
        match self {
            Failure::Input(error) => write!(f, "standard input: {error}"),
            Failure::Output(error) => write!(f, "standard output: {error}"),
        }
    }
}

// Where the failure cannot be said either, there is nobody to tell.
fn main(rt: HostRuntime) {
    if let Err(failure) = run(&rt) {
        let _ = eprintln!(rt; "negwafir: {failure}");
    }
}

// Answers each line before more is read. A proved loop has to end, and nothing says that the input does. So the turns are counted, up to a number that no run comes to.
fn run(rt: &HostRuntime) -> Result<(), Failure> {
    let mut feed = Feed::new(rt.stdin());
    let mut desk = Desk::empty();
    for _ in 0..u64::MAX {
        let Some(line) = feed.next().map_err(Failure::Input)? else {
            break;
        };
        desk.answer(rt, line).map_err(Failure::Output)?;
    }
    Ok(())
}
