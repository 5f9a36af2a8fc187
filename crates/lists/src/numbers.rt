// The numbers that a line has for a list: its words, each a number of 32 bits.
ghost use Rattle.std.specs.Prelude.{◌≡◌, drop};
ghost use Rattle.words.specs.Words.{words_of};
ghost use Rattle.lists.specs.Lists.{numbers_of, Setting};
ghost use Rattle.lists.specs.Next.{numbers_next};

use decimals::whole32;
use words::{next_word, part};

// How many numbers a list of the workbench has room for.
pub const ROOM: usize = 2048;

// The number that the next word says, and where the word ends; nothing where there is no word, or where it says none.
fn next_number(line: &[u8], from: usize) -> Option<(i32, usize)>
    ensures { numbers_of (words_of (drop from line.now)) ≡ numbers_next line.now result }
{
    let word = next_word(line, from)?;
    let number = whole32(part(line, word.start, word.end)).ok()?;
    Some((number, word.end))
}

// Where the first word of the line ends, and 0 where it has none.
#[tactic(auto, using(crate::specs::Next::behind))]
fn behind_first(line: &[u8]) -> usize
    ensures { words_of (drop result line.now) ≡ drop 1 (words_of line.now) }
{
    next_word(line, 0).map_or(0, |word| word.end)
}

// Puts the numbers that follow the line's first word in front of a list, up to the first word that is none and as far as there is room, and answers how many they are.
pub fn set(list: &mut [i32], line: &[u8]) -> usize
    ensures { Setting list.old (numbers_of (drop 1 (words_of line.now))) list.new result }
{
    let mut at = behind_first(line);
    for (n, slot) in list.iter_mut().enumerate() {
        let Some((number, end)) = next_number(line, at) else {
            return n;
        };
        *slot = number;
        at = end;
    }
    list.len()
}
