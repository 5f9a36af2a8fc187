// Words out of lines of bytes, and whole decimal numbers out of words and into them.
ghost use Rattle.std.specs.Prelude.{◌≡◌, length, drop};
ghost use Rattle.words.specs.Lines.{first_of, without_return, Appended};
ghost use Rattle.words.specs.Words.{next_word, words_of, part_of};
ghost use Rattle.decimals.specs.Decimal.{number_of, number32_of};
ghost use Rattle.decimals.specs.Text.{decimal_of, text_of};
ghost use Rattle.exports.specs.Cases.{WordAs, NumberAs};

use exports::{Read, Read32, Span};

#[unsafe(no_mangle)]
pub extern "C" fn negwafir_find(bytes: &[u8], from: usize, byte: u8) -> usize
    ensures { result ≡ first_of byte bytes.now from }
{
    exports::negwafir_find(bytes, from, byte)
}

#[unsafe(no_mangle)]
pub extern "C" fn negwafir_content(line: &[u8]) -> usize
    ensures { result ≡ length (without_return line.now) }
{
    exports::negwafir_content(line)
}

#[unsafe(no_mangle)]
pub extern "C" fn negwafir_append(into: &mut [u8], held: usize, more: &[u8]) -> usize
    ensures { Appended into.old held more.now into.new result }
{
    exports::negwafir_append(into, held, more)
}

#[unsafe(no_mangle)]
pub extern "C" fn negwafir_next_word(line: &[u8], from: usize) -> Span
    ensures { WordAs (next_word line.now from) result.found result.start result.end }
{
    exports::negwafir_next_word(line, from)
}

#[unsafe(no_mangle)]
pub extern "C" fn negwafir_count_words(line: &[u8], from: usize) -> usize
    ensures { result ≡ length (words_of (drop from line.now)) }
{
    exports::negwafir_count_words(line, from)
}

#[unsafe(no_mangle)]
pub extern "C" fn negwafir_part(line: &[u8], start: usize, end: usize) -> usize
    ensures { result ≡ length (part_of line.now start end) }
{
    exports::negwafir_part(line, start, end)
}

#[unsafe(no_mangle)]
pub extern "C" fn negwafir_whole(text: &[u8]) -> Read
    ensures { NumberAs (number_of text.now) result.kind result.value }
{
    exports::negwafir_whole(text)
}

#[unsafe(no_mangle)]
pub extern "C" fn negwafir_whole32(text: &[u8]) -> Read32
    ensures { NumberAs (number32_of text.now) result.kind result.value }
{
    exports::negwafir_whole32(text)
}

#[unsafe(no_mangle)]
pub extern "C" fn negwafir_append_natural(into: &mut [u8], held: usize, n: u64) -> usize
    ensures { Appended into.old held (decimal_of n) into.new result }
{
    exports::negwafir_append_natural(into, held, n)
}

#[unsafe(no_mangle)]
pub extern "C" fn negwafir_append_whole(into: &mut [u8], held: usize, n: i64) -> usize
    ensures { Appended into.old held (text_of n) into.new result }
{
    exports::negwafir_append_whole(into, held, n)
}

#[unsafe(no_mangle)]
pub extern "C" fn negwafir_append_whole32(into: &mut [u8], held: usize, n: i32) -> usize
    ensures { Appended into.old held (text_of n) into.new result }
{
    exports::negwafir_append_whole32(into, held, n)
}
