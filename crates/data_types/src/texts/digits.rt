//! Decimal digits and blanks at the front of a text.

ghost use Rattle.std.specs.Prelude.{◌≡◌, ◌+◌, ◌-◌, ◌*◌, ◌≤◌, ◌^◌, MatchOption, length};
ghost use Rattle.std.specs.Option.{option_map};
ghost use Rattle.data_types.specs.Digits.{after_blanks, are_blanks, digits_at, is_blank, lent_run, word_length};

/// Digits at the front of a text.
#[derive(Clone, Copy)]
pub(crate) struct Digits<'a> {
    /// The number that they spell.
    pub value: u64,
    /// How many they are.
    pub count: usize,
    /// What stands after them.
    pub rest: &'a [u8],
}

/// The digits at the front of a text; None where their number is of over 64 bits.
pub(crate) fn digits_at(text: &[u8]) -> Option<Digits<'_>>
    ensures { option_map lent_run result ≡ digits_at text.now }
{
    let mut value: u64 = 0;
    let mut count: usize = 0;
    let mut rest = text;
    while let Some((b, tail)) = rest.split_first() {
        if !b.is_ascii_digit() {
            return Some(Digits { value, count, rest });
        }
        let Some(longer) = with_digit(value, *b) else {
            return None;
        };
        value = longer;
        count += 1;
        rest = tail;
    }
    Some(Digits { value, count, rest })
}

/// The number with one digit more; None where it is of over 64 bits.
fn with_digit(value: u64, digit: u8) -> Option<u64>
    requires { 48 ≤ digit }
    ensures { MatchOption result (2 ^ 64 ≤ value * 10 + (digit - 48))
        (λ n. n ≡ value * 10 + (digit - 48)) }
{
    match value.checked_mul(10) {
        Some(tens) => tens.checked_add(u64::from(digit - b'0')),
        None => None,
    }
}

/// Whether PostgreSQL takes the byte for a blank.
pub(crate) fn is_blank(b: u8) -> bool
    ensures { result ≡ is_blank b }
{
    b == b' ' || (9 <= b && b <= 13)
}

/// The text from its first byte on that is no blank.
pub(crate) fn after_blanks(text: &[u8]) -> &[u8]
    ensures { result.now ≡ after_blanks text.now }
{
    let mut rest = text;
    while let Some((b, tail)) = rest.split_first() {
        if !is_blank(*b) {
            return rest;
        }
        rest = tail;
    }
    rest
}

/// Whether nothing but blanks stands there.
pub(crate) fn are_blanks(text: &[u8]) -> bool
    ensures { result ≡ are_blanks text.now }
{
    text.iter().all(|b| is_blank(*b))
}

/// How many bytes stand before the first blank.
pub(crate) fn word_len(text: &[u8]) -> usize
    ensures value { result ≡ word_length text.now }
    ensures within { result ≤ length text.now }
{
    let mut count = 0;
    let mut rest = text;
    while let Some((b, tail)) = rest.split_first() {
        if is_blank(*b) {
            return count;
        }
        count += 1;
        rest = tail;
    }
    count
}
