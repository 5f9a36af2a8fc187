// Lines out of a stream that comes in chunks of bytes: a line is put together, piece by piece, in a buffer that is lent from chunk to chunk. Nothing is asked of the caller.
#![tactic(auto)]

ghost use Rattle.lines.specs.Taking.{Taking};

// What a piece of a line leaves: how many bytes of the line are held then, where one goes on, and whether the line has ended. One goes on from `next` either way, which is no part
// of a case.
#[derive(Clone, Copy, PartialEq, Eq)]
pub struct Taken {
    pub held: usize,
    pub next: usize,
    pub whole: bool,
}

// Puts what the chunk has from `from` on, up to its next LF, behind the first `held` bytes of `line`, as far as there is room.
pub fn take(line: &mut [u8], held: usize, chunk: &[u8], from: usize) -> Taken
    ensures { Taking line.old held chunk.now from line.new result.held result.next result.whole }
{
    let end = words::find(chunk, from, b'\n');
    let held = words::append(line, held, words::part(chunk, from, end));
    let whole = end < chunk.len();
    let next = if whole { end + 1 } else { end };
    Taken { held, next, whole }
}
