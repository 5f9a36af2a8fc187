// A float as it is written, for the replies alone: no other number is a float.
ghost use Rattle.std.specs.Prelude.{◌≡◌};
ghost use Rattle.replies.specs.Floats.{is_negative, whole_part, float_as};

use answers::Signed;

// By its sign, also where it is −0, and its whole part. No answer has a float with a fraction.
pub(crate) fn float(x: f64) -> Signed
    ensures { result ≡ float_as x }
{
    if is_negative(x) {
        return Signed {
            negative: true,
            size: whole_part(-x),
        };
    }
    Signed {
        negative: false,
        size: whole_part(x),
    }
}

// −0 is no less than 0, but 1 over it is.
fn is_negative(x: f64) -> bool
    ensures { result ≡ is_negative x }
{
    1.0 / x < 0.0
}

// The whole part of a float above −1 and below 2^64, and 0 for any other.
fn whole_part(x: f64) -> u64
    ensures { result ≡ whole_part x }
{
    if x > -1.0 {
        if x < 18446744073709551616.0 {
            return std::num::truncating_f64_to_u64(x);
        }
    }
    0
}
