// Answers as text: a template, filled in with numbers and a text; and texts kept one after another in one row of bytes. No function asks anything of its caller.
#![tactic(auto)]

mod filling;
mod texts;

pub use filling::{Signed, fill};
pub use texts::entry;
