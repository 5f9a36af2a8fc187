// Whole numbers as decimal text, put behind what a buffer holds. What `reading` reads, this writes: the promise is of each byte, also where there is too little room, of which the
// library's printing says nothing.
ghost use Rattle.std.specs.Prelude.{◌+◌, ◌<◌, ◌≡◌, [], ◌∷◌};
ghost use Rattle.words.specs.Lines.{Appended};
ghost use Rattle.decimals.specs.Text.{decimal_of, text_of};

use words::append;

// Puts the digits of n, a number that is not negative, behind the first `held` bytes of `into`, and answers how many bytes stand there then. Where there is too little room the
// last digits are left out, as `append` does.
pub fn append_natural(into: &mut [u8], held: usize, n: u64) -> usize
    ensures { Appended into.old held (decimal_of n) into.new result }
{
    if n < 10 {
        return append_digit(into, held, n);
    }
    let tens = append_natural(into, held, n / 10);
    append_digit(into, tens, n % 10)
}

// Puts n, with a `-` where it is negative, behind the first `held` bytes of `into`, in the same way.
pub fn append_whole(into: &mut [u8], held: usize, n: i64) -> usize
    ensures { Appended into.old held (text_of n) into.new result }
{
    if n < 0 {
        let signed = append(into, held, b"-");
        return append_natural(into, signed, n.unsigned_abs());
    }
    append_natural(into, held, n.unsigned_abs())
}

// The same for a number of 32 bits.
pub fn append_whole32(into: &mut [u8], held: usize, n: i32) -> usize
    ensures { Appended into.old held (text_of n) into.new result }
{
    append_whole(into, held, i64::from(n))
}

fn append_digit(into: &mut [u8], held: usize, d: u64) -> usize
    requires { d < 10 }
    ensures { Appended into.old held ((48 + d) ∷ []) into.new result }
{
    let digit = [b'0' + d as u8];
    append(into, held, &digit)
}
