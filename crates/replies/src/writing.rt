// A reply as bytes, each of which is promised, where `Display` promises none. Each template stands beside its numbers, in one call.
ghost use Rattle.std.specs.Prelude.{◌≡◌, [], ◌∷◌, ◌++◌};
ghost use Rattle.words.specs.Lines.{Appended};
ghost use Rattle.answers.specs.Filling.{natural_as, filled};
ghost use Rattle.replies.specs.Replies.{cause_of, cause_by_number, refused, verdict_text, fault_line, refused_line, line_of};

use crate::Reply;
use crate::written::float;
use answers::Signed;
use commands::Fault;
use drive::Answer;
use piece::Verdict;
use rules::{Cause, Refused};

// Puts the line of a reply, with its LF, behind the first `held` bytes of `into`, as far as there is room, and answers how many bytes stand there then. A silent one has
// no byte.
#[tactic(auto, unfolding(crate::specs::Replies::line_of))]
pub fn append_reply(into: &mut [u8], held: usize, reply: Reply) -> usize
    ensures { Appended into.old held (line_of reply) into.new result }
{
    match reply {
        Reply::Silent => words::append(into, held, b""),
        Reply::Wrong(line, fault) => append_fault(into, held, line, fault),
        Reply::Done(Ok(())) => append_line(into, held, b"ok", &[]),
        Reply::Count(n) => append_line(into, held, b"ok #", &[Signed::from(n as u64)]),
        Reply::Judged(Ok(verdict)) => append_line(into, held, text_of_verdict(verdict), &[]),
        Reply::Valued(Ok(value)) => append_line(into, held, b"#", &[Signed::from(value)]),
        Reply::Driven(Ok(Answer::Dwell(level))) => append_line(
            into,
            held,
            b"dwell #",
            &[float(level)],
        ),
        Reply::Driven(Ok(Answer::Move(m))) => append_line(
            into,
            held,
            b"move # # #",
            &[float(m.left), float(m.numerator), float(m.denominator)],
        ),
        Reply::SlopeUnit(s) => append_line(into, held, b"#", &[Signed::from(u64::from(s))]),
        Reply::Done(Err(r))
        | Reply::Judged(Err(r))
        | Reply::Valued(Err(r))
        | Reply::Driven(Err(r)) => append_refusal(into, held, r),
        Reply::Numbered(number, place) => append_refused(
            into,
            held,
            number,
            place,
            text_of_number(number),
        ),
    }
}

// A template with its numbers, and an LF.
fn append_line(into: &mut [u8], held: usize, template: &[u8], numbers: &[Signed]) -> usize
    ensures { Appended into.old held (filled template.now [] numbers.now ++ (10 ∷ [])) into.new result }
{
    let n = answers::fill(into, held, template, b"", numbers);
    words::append(into, n, b"\n")
}

#[tactic(auto, unfolding(crate::specs::Replies::fault_line))]
fn append_fault(into: &mut [u8], held: usize, line: u64, fault: Fault) -> usize
    ensures { Appended into.old held (fault_line line fault) into.new result }
{
    let line = Signed::from(line);
    match fault {
        Fault::TooLong => append_line(
            into,
            held,
            b"? line #: the line is longer than 65536 bytes",
            &[line],
        ),
        Fault::NoCommand => append_line(into, held, b"? line #: no such command", &[line]),
        Fault::TooFew => append_line(into, held, b"? line #: too few words", &[line]),
        Fault::TooMany => append_line(into, held, b"? line #: too many words", &[line]),
        Fault::NoList => append_line(into, held, b"? line #: no such list", &[line]),
        Fault::NotDecimal(k) => append_line(
            into,
            held,
            b"? line #: number # is not a whole decimal number",
            &[line, Signed::from(k as u64)],
        ),
        Fault::Beyond32(k) => append_line(
            into,
            held,
            b"? line #: number # does not fit 32 bits",
            &[line, Signed::from(k as u64)],
        ),
        Fault::Beyond64(k) => append_line(
            into,
            held,
            b"? line #: number # does not fit 64 bits",
            &[line, Signed::from(k as u64)],
        ),
        Fault::BeyondUnsigned(k) => append_line(
            into,
            held,
            b"? line #: number # is not in 0 to 4294967295",
            &[line, Signed::from(k as u64)],
        ),
    }
}

fn append_refusal(into: &mut [u8], held: usize, r: Refused) -> usize
    ensures { Appended into.old held (refused_line r) into.new result }
{
    append_refused(
        into,
        held,
        r.cause.number(),
        r.place,
        text_of_cause(r.cause),
    )
}

// A refusal's number, its place and the text of its cause, and an LF.
fn append_refused(into: &mut [u8], held: usize, number: u32, place: usize, cause: &[u8]) -> usize
    ensures { Appended into.old held (filled refused cause.now (natural_as number ∷ natural_as place ∷ []) ++ (10 ∷ [])) into.new result }
{
    let numbers = [Signed::from(u64::from(number)), Signed::from(place as u64)];
    let n = answers::fill(into, held, b"refused # at #: $", cause, &numbers);
    words::append(into, n, b"\n")
}

fn text_of_verdict(verdict: Verdict) -> &'static [u8]
    ensures { result.now ≡ verdict_text verdict }
{
    match verdict {
        Verdict::Rising => b"rising",
        Verdict::Falling => b"falling",
        Verdict::Flat => b"flat",
        Verdict::Bends => b"bends",
    }
}

fn text_of_cause(cause: Cause) -> &'static [u8]
    ensures { result.now ≡ cause_of cause }
{
    match cause {
        Cause::Lengths => b"the lists' lengths differ",
        Cause::Count => b"fewer than 2 or more than 1024 points",
        Cause::Width => b"a width is not in 1 to 1024",
        Cause::Rise => b"a rise is outside its limits",
        Cause::Bend => b"a piece is not monotone",
        Cause::Position => b"position before the first or after the last knot",
        Cause::Point => b"no point with this number",
        Cause::Size => b"piece too large for the exact float answer",
        Cause::SlopeUnit => b"the slope unit is not in 0 to 8",
    }
}

// The text of the cause with this number; a number without a cause has none.
fn text_of_number(number: u32) -> &'static [u8]
    ensures { result.now ≡ cause_by_number number }
{
    match number {
        1 => text_of_cause(Cause::Lengths),
        2 => text_of_cause(Cause::Count),
        3 => text_of_cause(Cause::Width),
        4 => text_of_cause(Cause::Rise),
        5 => text_of_cause(Cause::Bend),
        6 => text_of_cause(Cause::Position),
        7 => text_of_cause(Cause::Point),
        8 => text_of_cause(Cause::Size),
        12 => text_of_cause(Cause::SlopeUnit),
        _ => b"",
    }
}
