// Words out of lines of bytes, and whole decimal numbers out of words and into them. What reads and writes 32 bits stands beside what does 64, as C has a record and a name for each.
ghost use Rattle.std.specs.Prelude.{◌≡◌, length, drop};
ghost use Rattle.words.specs.Lines.{first_of, without_return, Appended};
ghost use Rattle.words.specs.Words.{next_word, words_of, part_of};
ghost use Rattle.decimals.specs.Decimal.{number_of, number32_of};
ghost use Rattle.decimals.specs.Text.{decimal_of, text_of};
ghost use Rattle.exports.specs.Cases.{WordAs, NumberAs};

use crate::kinds::kind_of;

// The text says a number.
const WHOLE: u32 = 0;

// A word of a line, from its first position to the one after its last; or none, and 0 for both.
#[repr(C)]
#[derive(Clone, Copy)]
pub struct Span {
    pub found: bool,
    pub start: usize,
    pub end: usize,
}

// A number of 64 bits; or why the text says none, and 0.
#[repr(C)]
#[derive(Clone, Copy)]
pub struct Read {
    pub kind: u32,
    pub value: i64,
}

// The same of 32 bits.
#[repr(C)]
#[derive(Clone, Copy)]
pub struct Read32 {
    pub kind: u32,
    pub value: i32,
}

pub fn negwafir_find(bytes: &[u8], from: usize, byte: u8) -> usize
    ensures { result ≡ first_of byte bytes.now from }
{
    words::find(bytes, from, byte)
}

// The content begins where the line does.
pub fn negwafir_content(line: &[u8]) -> usize
    ensures { result ≡ length (without_return line.now) }
{
    words::content(line).len()
}

pub fn negwafir_append(into: &mut [u8], held: usize, more: &[u8]) -> usize
    ensures { Appended into.old held more.now into.new result }
{
    words::append(into, held, more)
}

pub fn negwafir_next_word(line: &[u8], from: usize) -> Span
    ensures { WordAs (next_word line.now from) result.found result.start result.end }
{
    match words::next_word(line, from) {
        Some(word) => Span {
            found: true,
            start: word.start,
            end: word.end,
        },
        None => Span {
            found: false,
            start: 0,
            end: 0,
        },
    }
}

pub fn negwafir_count_words(line: &[u8], from: usize) -> usize
    ensures { result ≡ length (words_of (drop from line.now)) }
{
    words::count(line, from)
}

// The part, where it has a byte, begins at `start`.
pub fn negwafir_part(line: &[u8], start: usize, end: usize) -> usize
    ensures { result ≡ length (part_of line.now start end) }
{
    words::part(line, start, end).len()
}

pub fn negwafir_whole(text: &[u8]) -> Read
    ensures { NumberAs (number_of text.now) result.kind result.value }
{
    match decimals::whole(text) {
        Ok(value) => Read { kind: WHOLE, value },
        Err(why) => Read {
            kind: kind_of(why),
            value: 0,
        },
    }
}

pub fn negwafir_whole32(text: &[u8]) -> Read32
    ensures { NumberAs (number32_of text.now) result.kind result.value }
{
    match decimals::whole32(text) {
        Ok(value) => Read32 { kind: WHOLE, value },
        Err(why) => Read32 {
            kind: kind_of(why),
            value: 0,
        },
    }
}

pub fn negwafir_append_natural(into: &mut [u8], held: usize, n: u64) -> usize
    ensures { Appended into.old held (decimal_of n) into.new result }
{
    decimals::append_natural(into, held, n)
}

pub fn negwafir_append_whole(into: &mut [u8], held: usize, n: i64) -> usize
    ensures { Appended into.old held (text_of n) into.new result }
{
    decimals::append_whole(into, held, n)
}

pub fn negwafir_append_whole32(into: &mut [u8], held: usize, n: i32) -> usize
    ensures { Appended into.old held (text_of n) into.new result }
{
    decimals::append_whole32(into, held, n)
}
