// Whole decimal numbers as text: read exactly or not at all, and written so that they read back. No function asks anything of its caller.
#![tactic(auto)]

mod reading;
mod writing;

pub use reading::{NotNumber, whole, whole32};
pub use writing::{append_natural, append_whole, append_whole32};
