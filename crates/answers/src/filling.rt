// Templates, filled in: `#` is the place of the next number, `$` that of the text, and any other byte stands for itself.
ghost use Rattle.std.specs.Prelude.{◌≡◌};
ghost use Rattle.words.specs.Lines.{Appended};
ghost use Rattle.answers.specs.Filling.{natural_as, whole_as, signed_text, filled};

use decimals::append_natural;
use words::append;

// A number as it is written: a sign and a size, since a float can be -0.
#[derive(Clone, Copy)]
pub struct Signed {
    pub negative: bool,
    pub size: u64,
}

// A number that is not negative, as it is written.
impl From<u64> for Signed {
    ghost from_gives = { λ n s. s ≡ natural_as n };

    fn from(n: u64) -> Signed {
        Signed {
            negative: false,
            size: n,
        }
    }
}

// A whole number, as it is written.
impl From<i64> for Signed {
    ghost from_gives = { λ n s. s ≡ whole_as n };

    fn from(n: i64) -> Signed {
        Signed {
            negative: n < 0,
            size: n.unsigned_abs(),
        }
    }
}

// The same for a number of 32 bits.
impl From<i32> for Signed {
    ghost from_gives = { λ n s. s ≡ whole_as n };

    fn from(n: i32) -> Signed {
        Signed::from(i64::from(n))
    }
}

// Fills a template in behind the first `held` bytes of `into`, as far as there is room, and answers how many bytes stand there then: each `#` is the next of
// the numbers, and nothing after the last, each `$` the text, and any other byte itself. The last step appends nothing, for a template that is empty: no more
// bytes stand there than the buffer has.
pub fn fill(into: &mut [u8], held: usize, template: &[u8], text: &[u8], numbers: &[Signed]) -> usize
    ensures { Appended into.old held (filled template.now text.now numbers.now) into.new result }
{
    let mut n = held;
    let mut left = numbers;
    for b in template {
        match *b {
            b'#' => {
                if let Some((number, others)) = left.split_first() {
                    n = append_signed(into, n, *number);
                    left = others;
                }
            }
            b'$' => n = append(into, n, text),
            itself => n = append(into, n, &[itself]),
        }
    }
    append(into, n, b"")
}

fn append_signed(into: &mut [u8], held: usize, number: Signed) -> usize
    ensures { Appended into.old held (signed_text number) into.new result }
{
    if number.negative {
        let signed = append(into, held, b"-");
        return append_natural(into, signed, number.size);
    }
    append_natural(into, held, number.size)
}
