//! The numbers that decimal digits write.

ghost use Rattle.std.specs.Prelude.{◌≡◌, ◌+◌, ◌*◌, ◌≤◌, ◌<◌, ◌^◌, MatchOption};
ghost use Rattle.std.specs.Char.{digit_value};
ghost use Rattle.std.specs.Str.Parse.{digits_value};

/// The value of what is no digit, which no number has.
const NO_DIGIT: u32 = 36;

/// The number that the digits write; None where it is of over 64 bits. Whoever calls has seen that they are digits.
pub fn decimal_of(digits: &[u8]) -> Option<u64>
    ensures { MatchOption result (2 ^ 64 ≤ digits_value 10 digits.now)
        (λ n. n ≡ digits_value 10 digits.now) }
{
    let mut value = 0;
    let mut rest = digits;
    while let Some((b, tail)) = rest.split_first() {
        let Some(longer) = with_digit(value, *b) else {
            return None;
        };
        value = longer;
        rest = tail;
    }
    Some(value)
}

/// The number with one digit more; None where it is of over 64 bits.
fn with_digit(value: u64, b: u8) -> Option<u64>
    ensures { MatchOption result (2 ^ 64 ≤ value * 10 + digit_value b)
        (λ n. n ≡ value * 10 + digit_value b) }
{
    match value.checked_mul(10) {
        Some(tens) => tens.checked_add(u64::from(digit(b))),
        None => None,
    }
}

fn digit(b: u8) -> u32
    ensures value { result ≡ digit_value b }
    ensures small { result < 37 }
{
    match char::from(b).to_digit(36) {
        Some(value) => value,
        None => NO_DIGIT,
    }
}
