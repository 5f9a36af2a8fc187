// Lines out of a stream: where one ends, what it holds without its ending, and how a line that comes in pieces is put together.
ghost use Rattle.std.specs.Prelude.{◌≡◌, length};
ghost use Rattle.words.specs.Lines.{first_of, without_return, Appended};

// The first position, `from` or after it, that holds `byte`; where none does, the end of the bytes, or `from` past it, as C is answered, and as a caller cuts the bytes either way.
pub fn find(bytes: &[u8], from: usize, byte: u8) -> usize
    ensures { result ≡ first_of byte bytes.now from }
{
    for i in from..bytes.len() {
        if bytes[i] == byte {
            return i;
        }
    }
    from.max(bytes.len())
}

// The line without the one CR that may end it.
pub fn content(line: &[u8]) -> &[u8]
    ensures { result.now ≡ without_return line.now }
{
    match line {
        [content @ .., b'\r'] => content,
        _ => line,
    }
}

// Puts `more` behind the first `held` bytes of `into`, as far as there is room, and answers how many bytes stand there then.
// What finds no room is left out, so that a buffer that is full says that there was at least as much. A buffer goes with the number of bytes that it holds, here and in what is
// above, as C hands the two over.
pub fn append(into: &mut [u8], held: usize, more: &[u8]) -> usize
    ensures { Appended into.old held more.now into.new result }
{
    if into.len() <= held {
        return into.len();
    }
    let room = into.len() - held;
    if room < more.len() {
        copy(&mut into[held..], &more[..room]);
        return into.len();
    }
    copy(&mut into[held..held + more.len()], more);
    held + more.len()
}

// Byte by byte, since `copy_from_slice` calls a function of C's library, and the library needs none.
fn copy(into: &mut [u8], from: &[u8])
    requires { length into.old ≡ length from.now }
    ensures { into.new ≡ from.now }
{
    for i in 0..from.len() {
        into[i] = from[i];
    }
}
