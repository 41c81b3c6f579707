//! The fields of a body, each where it is there whole.

ghost use Rattle.std.specs.Prelude.{◌≡◌};
ghost use Rattle.std.specs.Int.{w16, w32};
ghost use Rattle.frames.specs.Body.{ReadsAt, passed_part, there};
ghost use Rattle.frames.specs.Raw.{as_bytes};
ghost use Rattle.pqformat.specs.Fields.{byte_at, number_at, string_at};

use crate::fault::FrameFault;
use pqformat::Cursor;

pub(crate) fn byte(cursor: &mut Cursor<'_>) -> Result<u8, FrameFault>
    ensures { ReadsAt result cursor.new (passed_part (λ n. n) (there (byte_at cursor.old))) }
{
    cursor.u8().ok_or(FrameFault::BadBody)
}

pub(crate) fn int16(cursor: &mut Cursor<'_>) -> Result<u16, FrameFault>
    ensures { ReadsAt result cursor.new (passed_part (λ n. n) (there (number_at w16 cursor.old))) }
{
    cursor.u16().ok_or(FrameFault::BadBody)
}

pub(crate) fn int32(cursor: &mut Cursor<'_>) -> Result<u32, FrameFault>
    ensures { ReadsAt result cursor.new (passed_part (λ n. n) (there (number_at w32 cursor.old))) }
{
    cursor.u32().ok_or(FrameFault::BadBody)
}

/// The bytes before the next zero byte.
pub(crate) fn string<'a>(cursor: &mut Cursor<'a>) -> Result<&'a [u8], FrameFault>
    ensures { ReadsAt (as_bytes result) cursor.new
        (passed_part (λ s. s) (there (string_at cursor.old))) }
{
    cursor.cstr().ok_or(FrameFault::BadBody)
}
