// Which command a line has, and what its words ask for: a function for each command, over the line and where the command's name ends.
ghost use Rattle.std.specs.Prelude.{◌≡◌, drop};
ghost use Rattle.words.specs.Words.{words_of, part_of};
ghost use Rattle.commands.specs.Commands.{is_comment, list_of, set_of, shown_of, show_of, piece_of, alone_of, one_number, change_of, unit_of, asked, command_of};

use crate::numbers::{are_numbers, are_words, fault_of, narrow_at, wide_at, word_at};
use crate::{Command, Fault, List, Piece, Point};

// The longest line that is answered, without its ending.
const LONGEST: usize = 65536;

// What a line, without its ending, asks for.
pub fn parse(line: &[u8]) -> Result<Command, Fault>
    ensures { result ≡ command_of line.now }
{
    if LONGEST < line.len() {
        return Err(Fault::TooLong);
    }
    if is_comment(line) {
        return Ok(Command::Nothing);
    }
    match words::next_word(line, 0) {
        Some(word) => named(line, words::part(line, word.start, word.end), word.end),
        None => Ok(Command::Nothing),
    }
}

fn is_comment(line: &[u8]) -> bool
    ensures { result ≡ is_comment line.now }
{
    matches!(line, [b'#', ..])
}

// What the command of this name asks for, whose words stand from `from` on. Names are compared one by one: over a `match` on texts, which was tried, the proof does not close.
#[tactic(auto, unfolding(crate::specs::Commands::asked))]
fn named(line: &[u8], name: &[u8], from: usize) -> Result<Command, Fault>
    ensures { result ≡ asked name.now (words_of (drop from line.now)) }
{
    if let Some(list) = list_of(name) {
        set(line, from, list)
    } else if name == b"show".as_slice() {
        show(line, from)
    } else if name == b"piece".as_slice() {
        piece(line, from)
    } else if name == b"build".as_slice() {
        alone(line, from, Command::Build)
    } else if name == b"check".as_slice() {
        alone(line, from, Command::Check)
    } else if name == b"at".as_slice() {
        Ok(Command::At(one_number(line, from)?))
    } else if name == b"drive".as_slice() {
        Ok(Command::Drive(one_number(line, from)?))
    } else if name == b"change".as_slice() {
        change(line, from)
    } else if name == b"unit".as_slice() {
        unit(line, from)
    } else {
        Err(Fault::NoCommand)
    }
}

// The list of this name.
fn list_of(name: &[u8]) -> Option<List>
    ensures { result ≡ list_of name.now }
{
    if name == b"knots".as_slice() {
        Some(List::Knots)
    } else if name == b"values".as_slice() {
        Some(List::Values)
    } else if name == b"slopes".as_slice() {
        Some(List::Slopes)
    } else {
        None
    }
}

// `knots N...` and its like.
fn set(line: &[u8], from: usize, list: List) -> Result<Command, Fault>
    ensures { result ≡ set_of list (words_of (drop from line.now)) }
{
    if lists::ROOM < words::count(line, from) {
        return Err(Fault::TooMany);
    }
    are_numbers(line, from)?;
    Ok(Command::Set(list))
}

// `show LIST` and `show unit`.
fn show(line: &[u8], from: usize) -> Result<Command, Fault>
    ensures { result ≡ show_of (words_of (drop from line.now)) }
{
    are_words(line, from, 1)?;
    shown(word_at(line, from, 1)?)
}

fn shown(name: &[u8]) -> Result<Command, Fault>
    ensures { result ≡ shown_of name.now }
{
    if let Some(list) = list_of(name) {
        Ok(Command::Show(list))
    } else if name == b"unit".as_slice() {
        Ok(Command::ShowUnit)
    } else {
        Err(Fault::NoList)
    }
}

// `piece H Z M N`.
fn piece(line: &[u8], from: usize) -> Result<Command, Fault>
    ensures { result ≡ piece_of (words_of (drop from line.now)) }
{
    are_words(line, from, 4)?;
    Ok(Command::Piece(Piece {
        h: wide_at(line, from, 1)?,
        z: wide_at(line, from, 2)?,
        m: narrow_at(line, from, 3)?,
        n: narrow_at(line, from, 4)?,
    }))
}

// `build` and `check`, which have no words.
fn alone(line: &[u8], from: usize, command: Command) -> Result<Command, Fault>
    ensures { result ≡ alone_of command (words_of (drop from line.now)) }
{
    are_words(line, from, 0)?;
    Ok(command)
}

// The one number of `at X` and `drive X`.
fn one_number(line: &[u8], from: usize) -> Result<i32, Fault>
    ensures { result ≡ one_number (words_of (drop from line.now)) }
{
    are_words(line, from, 1)?;
    narrow_at(line, from, 1)
}

// `change K X V`.
fn change(line: &[u8], from: usize) -> Result<Command, Fault>
    ensures { result ≡ change_of (words_of (drop from line.now)) }
{
    are_words(line, from, 3)?;
    Ok(Command::Change(Point {
        number: wide_at(line, from, 1)?,
        knot: narrow_at(line, from, 2)?,
        value: narrow_at(line, from, 3)?,
    }))
}

// `unit S`. The number is one of 32 bits without a sign.
fn unit(line: &[u8], from: usize) -> Result<Command, Fault>
    ensures { result ≡ unit_of (words_of (drop from line.now)) }
{
    are_words(line, from, 1)?;
    let beyond = Fault::BeyondUnsigned(1);
    let n = decimals::whole(word_at(line, from, 1)?).map_err(|why| fault_of(why, 1, beyond))?;
    Ok(Command::SetUnit(u32::try_from(n).map_err(|_| beyond)?))
}
