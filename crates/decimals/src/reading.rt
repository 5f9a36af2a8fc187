// Whole decimal numbers: an optional `-` and one or more digits. Text of any length is read, and nothing wraps: a sum is
// held against its limit before it is made.
ghost use Rattle.std.specs.Prelude.{◌≡◌, true};
ghost use Rattle.decimals.specs.Decimal.{are_digits, natural, bounded, digits_of, magnitude_of, number_of, number32_of};

// Why text says no number.
#[derive(Clone, Copy, PartialEq, Eq)]
pub enum NotNumber {
    // It is something else than an optional `-` and one or more digits.
    NotDecimal,
    // It is a number, and beyond what the type holds, on either side of 0.
    TooLarge,
}

// Whether the bytes are digits alone.
fn are_digits(text: &[u8]) -> bool
    ensures { result ≡ are_digits text.now }
{
    text.iter().all(u8::is_ascii_digit)
}

// The value of the digits, unless 64 bits are too few for it.
#[tactic(auto, using(crate::specs::Digits::digit_laws))]
fn value(text: &[u8]) -> Result<u64, NotNumber>
    requires { are_digits text.now ≡ true }
    ensures { result ≡ bounded u64.MAX (natural 0 text.now) }
{
    let mut sum: u64 = 0;
    for b in text {
        let digit = u64::from(*b - b'0');
        // The sum is checked before it is made; the edit `sum_may_wrap` shows what a test of the product lets through.
        if (u64::MAX - digit) / 10 < sum {
            return Err(NotNumber::TooLarge);
        }
        sum = sum * 10 + digit;
    }
    Ok(sum)
}

// The value of one or more digits.
fn digits(text: &[u8]) -> Result<u64, NotNumber>
    ensures { result ≡ magnitude_of u64.MAX (digits_of text.now) }
{
    if text.is_empty() || !are_digits(text) {
        return Err(NotNumber::NotDecimal);
    }
    value(text)
}

// The number of 64 bits that the whole text says.
pub fn whole(text: &[u8]) -> Result<i64, NotNumber>
    ensures { result ≡ number_of text.now }
{
    match text {
        [b'-', after @ ..] => 0i64
            .checked_sub_unsigned(digits(after)?)
            .ok_or(NotNumber::TooLarge),
        _ => i64::try_from(digits(text)?).map_err(|_| NotNumber::TooLarge),
    }
}

// The number of 32 bits that the whole text says.
pub fn whole32(text: &[u8]) -> Result<i32, NotNumber>
    ensures { result ≡ number32_of text.now }
{
    i32::try_from(whole(text)?).map_err(|_| NotNumber::TooLarge)
}
