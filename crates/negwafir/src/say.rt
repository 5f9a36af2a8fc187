// Answers, each put together in a buffer that has room for the longest, and written by one call.
use lists::ROOM;
use replies::Reply;
use std::io;

pub fn reply(rt: &impl Print, reply: Reply) -> io::Result<()> {
    let mut out = [0u8; 128];
    let n = replies::append_reply(&mut out, 0, reply);
    rt.write_all(words::part(&out, 0, n))
}

// The numbers of a list. No list has more than ROOM of them, and each has up to 11 characters and a space or the line's end behind it. A call of its own, so that this
// much room is taken only while a list is shown.
#[inline(never)]
pub fn row(rt: &impl Print, list: &[i32]) -> io::Result<()> {
    let mut out = [0u8; 12 * ROOM];
    let n = lists::append_row(&mut out, 0, list);
    let n = words::append(&mut out, n, b"\n");
    rt.write_all(words::part(&out, 0, n))
}
