//! Integers as they are written.

ghost use Rattle.std.specs.Prelude.{◌≡◌};
ghost use Rattle.conditions.specs.Parts.{integer_if};
ghost use Rattle.conditions.specs.Words.{integer_of};

use crate::words::token::MINUS;
use pqformat::decimal_of;

/// The integer that digits write, after a minus if there is one; None where it is of over 64 bits.
#[tactic(auto, using(crate::proofs::Numbers::read_positive, crate::proofs::Numbers::read_negative, crate::proofs::Numbers::large_positive, crate::proofs::Numbers::large_negative))]
pub(crate) fn integer(bytes: &[u8]) -> Option<i64>
    ensures { result ≡ integer_if (integer_of bytes.now) }
{
    match bytes.split_first() {
        Some((b, digits)) if *b == MINUS => 0i64.checked_sub_unsigned(decimal_of(digits)?),
        _ => 0i64.checked_add_unsigned(decimal_of(bytes)?),
    }
}
