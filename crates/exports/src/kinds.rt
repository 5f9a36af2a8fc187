// The numbers by which cases cross to C, which has no enum of the project's.
ghost use Rattle.std.specs.Prelude.{◌≡◌, Err, pos};
ghost use Rattle.exports.specs.Cases.{verdict_number, finding_of, NumberAs};

use decimals::NotNumber;
use piece::Verdict;

const RISING: u32 = 1;

const FALLING: u32 = 2;

const FLAT: u32 = 3;

const BENDS: u32 = 4;

const NOT_DECIMAL: u32 = 1;

const TOO_LARGE: u32 = 2;

// The verdict by its number.
pub(crate) fn numbered(verdict: Verdict) -> u32
    ensures { result ≡ verdict_number (finding_of verdict) }
{
    match verdict {
        Verdict::Rising => RISING,
        Verdict::Falling => FALLING,
        Verdict::Flat => FLAT,
        Verdict::Bends => BENDS,
    }
}

// Why text says no number.
pub(crate) fn kind_of(why: NotNumber) -> u32
    ensures { NumberAs (Err why) result (pos 0) }
{
    match why {
        NotNumber::NotDecimal => NOT_DECIMAL,
        NotNumber::TooLarge => TOO_LARGE,
    }
}
