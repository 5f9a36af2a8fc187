// What crosses to C of a refusal and of what is answered beside it.
ghost use Rattle.std.specs.Prelude.{◌≡◌};
ghost use Rattle.rules.specs.Causes.{number_of, number, place, answer_or};

use rules::Refused;

// Nothing is refused.
const DONE: u32 = 0;

// A refusal: its number in the exact rules, and the place that it names. Both are 0 where nothing is refused.
#[repr(C)]
#[derive(Clone, Copy)]
pub struct Refusal {
    pub number: u32,
    pub place: usize,
}

// That of an answer that is given.
pub(crate) fn done() -> Refusal
    ensures number { result.number ≡ 0 }
    ensures place { result.place ≡ 0 }
{
    Refusal {
        number: DONE,
        place: 0,
    }
}

pub(crate) fn refusal_of(refused: Refused) -> Refusal
    ensures number { result.number ≡ number_of refused.cause }
    ensures place { result.place ≡ refused.place }
{
    Refusal {
        number: refused.cause.number(),
        place: refused.place,
    }
}

// The refusal of an answer, and what is answered: `none` where it is refused.
pub(crate) fn crossed<T: Copy>(answer: Result<T, Refused>, none: T) -> (Refusal, T)
    ensures number { result.0.number ≡ number answer }
    ensures place { result.0.place ≡ place answer }
    ensures answer { result.1 ≡ answer_or none answer }
{
    match answer {
        Ok(answer) => (done(), answer),
        Err(refused) => (refusal_of(refused), none),
    }
}

// The refusal alone, of what has no answer beside it.
pub(crate) fn settled(answer: Result<(), Refused>) -> Refusal
    ensures number { result.number ≡ number answer }
    ensures place { result.place ≡ place answer }
{
    crossed(answer, ()).0
}
