// Words out of a line: spaces and tabs separate them, and any other byte belongs to a word. A line goes with a position in it, here and in what is above, as C hands the two
// over: behind a word one goes on from its end.
ghost use Rattle.std.specs.Prelude.{◌≡◌, length, drop};
ghost use Rattle.words.specs.Words.{is_separator, run_end, alike, next_word, words_of, part_of};

// A word of a line, from its first position to the one after its last.
#[derive(Clone, Copy, PartialEq, Eq)]
pub struct Word {
    pub start: usize,
    pub end: usize,
}

fn is_separator(b: u8) -> bool
    ensures { result ≡ is_separator b }
{
    b == b' ' || b == b'\t'
}

// The end of the run of separators (blank), or of word bytes (not blank), that starts at `from`.
fn run(line: &[u8], from: usize, blank: bool) -> usize
    ensures { result ≡ run_end (alike blank) line.now from }
{
    for i in from..line.len() {
        if is_separator(line[i]) != blank {
            return i;
        }
    }
    from.max(line.len())
}

// The first word of what the line has from `from` on. A `from` inside a word finds the rest of that word.
pub fn next_word(line: &[u8], from: usize) -> Option<Word>
    ensures { result ≡ next_word line.now from }
{
    let start = run(line, from, true);
    if start < line.len() {
        Some(Word {
            start,
            end: run(line, start, false),
        })
    } else {
        None
    }
}

// How many words the line has from `from` on. A `from` inside a word counts the rest of that word.
pub fn count(line: &[u8], from: usize) -> usize
    ensures { result ≡ length (words_of (drop from line.now)) }
{
    let mut at = from;
    let mut n = 0;
    while let Some(word) = next_word(line, at) {
        at = word.end;
        n += 1;
    }
    n
}

// The bytes from `start` up to and without `end`, and no further than the line goes.
pub fn part(line: &[u8], start: usize, end: usize) -> &[u8]
    ensures { result.now ≡ part_of line.now start end }
{
    line.get(start..end.min(line.len())).unwrap_or(b"")
}
