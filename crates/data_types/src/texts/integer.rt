//! int2, int4 and int8 (PostgreSQL 15, 8.1.1).

ghost use Rattle.std.specs.Prelude.{◌≡◌};
ghost use Rattle.data_types.specs.Integers.{fits_bits, width_bits, integer_of, is_integer_text, magnitude_of, negative_of, positive_of};

use crate::texts::digits::{after_blanks, are_blanks, digits_at};
use itoa::Buffer;

/// The number of digits after which nothing but blanks stands; None where it is of over 64 bits.
fn magnitude_of(text: &[u8]) -> Option<u64>
    ensures { result ≡ magnitude_of text.now }
{
    let digits = digits_at(text)?;
    if digits.count > 0 && are_blanks(digits.rest) {
        return Some(digits.value);
    }
    None
}

#[tactic(auto, using(crate::proofs::Integers::read_positive))]
fn positive_of(text: &[u8]) -> Option<i64>
    ensures { result ≡ positive_of text.now }
{
    0i64.checked_add_unsigned(magnitude_of(text)?)
}

#[tactic(auto, using(crate::proofs::Integers::read_negative))]
fn negative_of(text: &[u8]) -> Option<i64>
    ensures { result ≡ negative_of text.now }
{
    0i64.checked_sub_unsigned(magnitude_of(text)?)
}

/// The integer that a text is taken for; None where it is of over 64 bits.
pub(crate) fn integer_of(text: &[u8]) -> Option<i64>
    ensures { result ≡ integer_of text.now }
{
    let text = after_blanks(text);
    match text.split_first() {
        Some((b, digits)) if *b == b'-' => negative_of(digits),
        Some((b, digits)) if *b == b'+' => positive_of(digits),
        Some(_) => positive_of(text),
        None => None,
    }
}

/// How wide an integer is.
#[derive(Clone, Copy)]
pub(crate) enum Width {
    Int2,
    Int4,
    Int8,
}

impl Width {
    #[tactic(auto, using(crate::proofs::Integers::fits_int2, crate::proofs::Integers::fits_int4, crate::proofs::Integers::fits_int8))]
    pub(crate) fn takes(self, n: i64) -> bool
        ensures { result ≡ fits_bits (width_bits self) n }
    {
        match self {
            Width::Int2 => i16::try_from(n).is_ok(),
            Width::Int4 => i32::try_from(n).is_ok(),
            Width::Int8 => true,
        }
    }
}

impl Width {
    /// How far below 0 it goes.
    pub(crate) fn most_below_zero(self) -> u64 {
        match self {
            Width::Int2 => 1 << 15,
            Width::Int4 => 1 << 31,
            Width::Int8 => 1 << 63,
        }
    }
}

/// Whether the text is that of an integer of this width as it is sent.
pub(crate) fn is_integer_text(width: Width, text: &[u8]) -> bool
    ensures { result ≡ is_integer_text (width_bits width) text.now }
{
    match integer_of(text) {
        Some(n) => width.takes(n) && Buffer::new().format(n).as_bytes() == text,
        None => false,
    }
}
