// The words of a command, which the line has from `from` on, counted from 1: how many they are, and the numbers that they say.
ghost use Rattle.std.specs.Prelude.{◌≡◌, ◌≤◌, ◌<◌, length, drop, MatchResult};
ghost use Rattle.words.specs.Words.{words_of};
ghost use Rattle.commands.specs.Commands.{counted, fault_of, first_fault, said32, word_at};
ghost use Rattle.commands.specs.Reading.{read64, read32};

use crate::Fault;
use decimals::NotNumber;

// Whether there are just n words.
pub(crate) fn are_words(line: &[u8], from: usize, n: usize) -> Result<(), Fault>
    ensures { result ≡ counted n (words_of (drop from line.now)) }
{
    let found = words::count(line, from);
    if found < n {
        return Err(Fault::TooFew);
    }
    if n < found {
        return Err(Fault::TooMany);
    }
    Ok(())
}

// Whether every word is a number of 32 bits. The first that is none is the fault.
pub(crate) fn are_numbers(line: &[u8], from: usize) -> Result<(), Fault>
    ensures { result ≡ first_fault 0 1 (words_of (drop from line.now)) }
{
    let mut at = from;
    let mut k = 0;
    while let Some(word) = words::next_word(line, at) {
        k += 1;
        number32(words::part(line, word.start, word.end), k)?;
        at = word.end;
    }
    Ok(())
}

// Word k. A line without it has too few.
pub(crate) fn word_at(line: &[u8], from: usize, k: usize) -> Result<&[u8], Fault>
    requires { 1 ≤ k }
    ensures { let words = words_of (drop from line.now) in
        MatchResult result (λ word. (k ≤ length words) × (word.now ≡ word_at k words)) (λ fault. (length words < k) × (fault ≡ Fault.TooFew)) }
{
    let mut at = from;
    for _ in 1..k {
        at = words::next_word(line, at).ok_or(Fault::TooFew)?.end;
    }
    let word = words::next_word(line, at).ok_or(Fault::TooFew)?;
    Ok(words::part(line, word.start, word.end))
}

// Word k as a number of 64 bits.
pub(crate) fn wide_at(line: &[u8], from: usize, k: usize) -> Result<i64, Fault>
    requires { 1 ≤ k }
    ensures { result ≡ read64 k (words_of (drop from line.now)) }
{
    let word = word_at(line, from, k)?;
    decimals::whole(word).map_err(|why| fault_of(why, k, Fault::Beyond64(k)))
}

// Word k as a number of 32 bits.
pub(crate) fn narrow_at(line: &[u8], from: usize, k: usize) -> Result<i32, Fault>
    requires { 1 ≤ k }
    ensures { result ≡ read32 k (words_of (drop from line.now)) }
{
    number32(word_at(line, from, k)?, k)
}

// What the word, the k-th of its command, says as a number of 32 bits.
fn number32(word: &[u8], k: usize) -> Result<i32, Fault>
    ensures { result ≡ said32 k word.now }
{
    decimals::whole32(word).map_err(|why| fault_of(why, k, Fault::Beyond32(k)))
}

// What is wrong with word k, which says no number of its kind; `beyond` where it is too large.
pub(crate) fn fault_of(why: NotNumber, k: usize, beyond: Fault) -> Fault
    ensures { result ≡ fault_of k beyond why }
{
    match why {
        NotNumber::NotDecimal => Fault::NotDecimal(k),
        NotNumber::TooLarge => beyond,
    }
}
