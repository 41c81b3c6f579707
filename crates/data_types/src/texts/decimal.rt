//! numeric: which text is one that is sent (PostgreSQL 15, 8.1.2).

ghost use Rattle.std.specs.Prelude.{◌≡◌, ◌≤◌, length};
ghost use Rattle.data_types.specs.Decimals.{are_zeros, decimal_at, digit_count, has_places, is_finite_text, is_infinity, is_numeric_text, is_sent_decimal, is_tidy, is_whole_text, is_zero, lent_decimal, takes_infinity, unsigned_at, whole_count};

use crate::limits::DecimalPlaces;

/// The most digits before the point (PostgreSQL 15, 8.1).
pub(crate) const MAX_WHOLE_DIGITS: usize = 131_072;

/// The most digits after the point.
pub(crate) const MAX_SCALE: usize = 16_383;

/// A decimal number as it is written, without an exponent.
#[derive(Clone, Copy)]
pub(crate) struct WrittenDecimal<'a> {
    pub is_negative: bool,
    /// The digits before the point.
    pub whole: &'a [u8],
    pub has_point: bool,
    /// The digits after it.
    pub fraction: &'a [u8],
    /// What stands after them.
    pub rest: &'a [u8],
}

/// How many digits stand at the front.
pub(crate) fn digit_count(text: &[u8]) -> usize
    ensures value { result ≡ digit_count text.now }
    ensures within { result ≤ length text.now }
{
    let mut count = 0;
    let mut rest = text;
    while let Some((b, tail)) = rest.split_first() {
        if !b.is_ascii_digit() {
            return count;
        }
        count += 1;
        rest = tail;
    }
    count
}

pub(crate) fn unsigned_at(is_negative: bool, text: &[u8]) -> WrittenDecimal<'_>
    ensures { lent_decimal result ≡ unsigned_at is_negative text.now }
{
    let (whole, behind) = text.split_at(digit_count(text));
    match behind.split_first() {
        Some((b, digits)) if *b == b'.' => {
            let (fraction, rest) = digits.split_at(digit_count(digits));
            WrittenDecimal {
                is_negative,
                whole,
                has_point: true,
                fraction,
                rest,
            }
        }
        _ => WrittenDecimal {
            is_negative,
            whole,
            has_point: false,
            fraction: &[],
            rest: behind,
        },
    }
}

pub(crate) fn decimal_at(text: &[u8]) -> WrittenDecimal<'_>
    ensures { lent_decimal result ≡ decimal_at text.now }
{
    match text.split_first() {
        Some((b, digits)) if *b == b'-' => unsigned_at(true, digits),
        _ => unsigned_at(false, text),
    }
}

pub(crate) fn are_zeros(digits: &[u8]) -> bool
    ensures { result ≡ are_zeros digits.now }
{
    digits.iter().all(|b| *b == b'0')
}

fn is_zero(it: WrittenDecimal<'_>) -> bool
    ensures { result ≡ is_zero (lent_decimal it.entry) }
{
    are_zeros(it.whole) && are_zeros(it.fraction)
}

fn is_whole_text(whole: &[u8]) -> bool
    ensures { result ≡ is_whole_text whole.now }
{
    match whole.split_first() {
        Some((b, digits)) => *b != b'0' || digits.is_empty(),
        None => false,
    }
}

pub(crate) fn whole_count(whole: &[u8]) -> usize
    ensures value { result ≡ whole_count whole.now }
    ensures within { result ≤ length whole.now }
{
    if are_zeros(whole) { 0 } else { whole.len() }
}

fn has_places(places: Option<DecimalPlaces>, it: WrittenDecimal<'_>) -> bool
    ensures { result ≡ has_places places (lent_decimal it.entry) }
{
    match places {
        Some(places) => {
            let scale = usize::from(places.scale());
            let precision = usize::from(places.precision());
            it.fraction.len() == scale && whole_count(it.whole) + scale <= precision
        }
        None => it.whole.len() <= MAX_WHOLE_DIGITS && it.fraction.len() <= MAX_SCALE,
    }
}

/// Whether no zero stands at the front of the digits, and a digit after a point.
pub(crate) fn is_tidy(it: WrittenDecimal<'_>) -> bool
    ensures { result ≡ is_tidy (lent_decimal it.entry) }
{
    is_whole_text(it.whole) && !(it.has_point && it.fraction.is_empty())
}

fn is_sent_decimal(it: WrittenDecimal<'_>) -> bool
    ensures { result ≡ is_sent_decimal (lent_decimal it.entry) }
{
    it.rest.is_empty() && is_tidy(it) && !(it.is_negative && is_zero(it))
}

pub(crate) fn is_infinity(text: &[u8]) -> bool
    ensures { result ≡ is_infinity text.now }
{
    text == b"Infinity".as_slice() || text == b"-Infinity".as_slice()
}

fn is_finite_text(places: Option<DecimalPlaces>, text: &[u8]) -> bool
    ensures { result ≡ is_finite_text places text.now }
{
    let it = decimal_at(text);
    is_sent_decimal(it) && has_places(places, it)
}

/// Whether the text is that of a number as it is sent.
pub(crate) fn is_numeric_text(places: Option<DecimalPlaces>, text: &[u8]) -> bool
    ensures { result ≡ is_numeric_text places text.now }
{
    text == b"NaN".as_slice()
        || (places.is_none() && is_infinity(text))
        || is_finite_text(places, text)
}
