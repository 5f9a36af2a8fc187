// Words out of a line of bytes, and lines out of a stream of them. No function asks anything of its caller.
#![tactic(auto)]

mod split;
mod stream;

pub use split::{Word, count, next_word, part};
pub use stream::{append, content, find};
