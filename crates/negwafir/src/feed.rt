// Lines out of a source of bytes, of any number and length, in buffers of fixed room: nothing here takes memory while it runs.
use std::io;
use std::io::Read;

// The room for a line. It has two bytes more than the longest line that is answered: a CR may end such a line, and one byte past that tells that a line is
// too long, so nothing is lost where the room is full.
const LONGEST: usize = 65538;

// The room for what one read brings.
const CHUNK: usize = 65536;

// A line without its ending, and its number, from 1.
#[derive(Clone, Copy)]
pub struct Line<'a> {
    pub number: u64,
    pub content: &'a [u8],
}

// The line that is put together: its number, and how many bytes are held of it. What the last read brought: how many bytes, and where in them the next line
// starts. And whether more may come.
#[derive(Drop)]
pub struct Feed<R> {
    source: R,
    line: [u8; LONGEST],
    held: usize,
    number: u64,
    chunk: [u8; CHUNK],
    filled: usize,
    at: usize,
    open: bool,
}

impl<R: Read + Drop> Feed<R> {
    // Nothing is read yet: the first line is the one after line 0.
    pub fn new(source: R) -> Feed<R> {
        Feed {
            source,
            line: [0; LONGEST],
            held: 0,
            number: 0,
            chunk: [0; CHUNK],
            filled: 0,
            at: 0,
            open: true,
        }
    }

    // The next whole line, or nothing behind the last one. After a read that fails what is held of a line is no line.
    pub fn next(&mut self) -> io::Result<Option<Line<'_>>> {
        if !self.advance()? {
            return Ok(None);
        }
        Ok(Some(Line {
            number: self.number,
            content: words::content(words::part(&self.line, 0, self.held)),
        }))
    }

    // Holds the next whole line, and reads only where more is needed for it. False where there is none.
    fn advance(&mut self) -> io::Result<bool> {
        if !self.open {
            return Ok(false);
        }
        self.held = 0;
        // No input has so many lines that the count stands still.
        self.number = self.number.saturating_add(1);
        for _ in 0..u64::MAX {
            if self.step()? {
                return Ok(true);
            }
        }
        Ok(false)
    }

    // One step toward a whole line, and whether it is one then: what was read is looked at up to where a line ends, or more is read.
    fn step(&mut self) -> io::Result<bool> {
        if self.at < self.filled {
            Ok(self.gather())
        } else {
            self.read()
        }
    }

    // Puts what was read, up to where the line ends, behind what is held of it.
    fn gather(&mut self) -> bool {
        let taken = lines::take(
            &mut self.line,
            self.held,
            words::part(&self.chunk, 0, self.filled),
            self.at,
        );
        self.held = taken.held;
        self.at = taken.next;
        taken.whole
    }

    // Reads once. Where the source ends, what stands behind its last LF is a line too, if only an empty one.
    fn read(&mut self) -> io::Result<bool> {
        self.filled = self.source.read(&mut self.chunk)?;
        self.at = 0;
        self.open = 0 < self.filled;
        Ok(!self.open)
    }
}
