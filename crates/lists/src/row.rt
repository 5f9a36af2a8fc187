// A list as a row of text: its numbers, with a space between two.
ghost use Rattle.words.specs.Lines.{Appended};
ghost use Rattle.lists.specs.Lists.{row_of};

use decimals::append_whole32;
use words::append;

// Puts the numbers of a list, with a space between two, behind the first `held` bytes of `into`, and answers how many bytes stand there then. Where there is too little room the
// last bytes are left out, as `append` does.
pub fn append_row(into: &mut [u8], held: usize, list: &[i32]) -> usize
    ensures { Appended into.old held (row_of list.now) into.new result }
{
    let mut n = held.min(into.len());
    for (i, number) in list.iter().enumerate() {
        if 0 < i {
            n = append(into, n, b" ");
        }
        n = append_whole32(into, n, *number);
    }
    n
}
