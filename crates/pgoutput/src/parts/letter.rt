//! Values that are told by one byte each.

ghost use Rattle.std.specs.Prelude.{◌≡◌};
ghost use Rattle.pgoutput.specs.Reading.{Gives, one_of};

use crate::fault::PgoutputError;
use crate::parts::fields::byte_of;
use pqformat::Cursor;

/// What a letter, a flag or the bits of options say.
pub(crate) trait Letter: Copy {
    ghost use Rattle.std.specs.Prelude.{ℕ, Option};

    ghost told_by: { ℕ → Option Self };

    fn of(letter: u8) -> Option<Self>
        ensures { result ≡ told_by letter };
}

/// What the next byte says; one that says nothing is O3.
pub(crate) fn told_of<T: Letter>(cursor: &mut Cursor<'_>) -> Result<T, PgoutputError>
    ensures { Gives result cursor.new (one_of T.told_by cursor.old) }
{
    let letter = byte_of(cursor)?;
    T::of(letter).ok_or(PgoutputError::BadMark)
}

/// Whether, by 1 or 0.
impl Letter for bool {
    ghost use Rattle.pgoutput.specs.Reading.{flag_of};

    ghost told_by = { flag_of };

    fn of(letter: u8) -> Option<bool> {
        match letter {
            1 => Some(true),
            0 => Some(false),
            _ => None,
        }
    }
}
