// Texts that stand one after another in one row of bytes, each ended by an LF or by the end. The program `calls` keeps its texts of what a drive is told so.
ghost use Rattle.std.specs.Prelude.{◌≡◌};
ghost use Rattle.answers.specs.Texts.{entry_of};

use words::{find, part};

// Entry k, from 0; empty where there is none.
#[tactic(auto, using(crate::specs::Passing::passing_laws))]
pub fn entry(texts: &[u8], k: usize) -> &[u8]
    ensures { result.now ≡ entry_of k texts.now }
{
    let mut start = 0;
    for _ in 0..k {
        let end = find(texts, start, b'\n');
        if texts.len() <= end {
            return b"";
        }
        start = end + 1;
    }
    part(texts, start, find(texts, start, b'\n'))
}
