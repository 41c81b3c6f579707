//! The fields of a body, each where it is there whole.

ghost use Rattle.std.specs.Int.{w64};
ghost use Rattle.pqformat.specs.Steps.{signed_at};
ghost use Rattle.copyboth.specs.Reading.{Gives, ask_at, int64_at, nothing_left};
ghost use Rattle.copyboth.specs.declared.fault.CopyFault.TheVariants.{Short};
ghost use Rattle.std.specs.Prelude.{◌≡◌};

use crate::fault::CopyFault;
use crate::keepalive::ASKS;
use pqformat::Cursor;

pub(crate) fn int64_of(cursor: &mut Cursor<'_>) -> Result<u64, CopyFault>
    ensures { Gives result cursor.new (int64_at cursor.old) }
{
    cursor.u64().ok_or(CopyFault::Short)
}

pub(crate) fn signed64_of(cursor: &mut Cursor<'_>) -> Result<i64, CopyFault>
    ensures { Gives result cursor.new (signed_at Short w64 cursor.old) }
{
    let number = int64_of(cursor)?;
    Ok(number.cast_signed())
}

/// Whether an answer is asked for: by 1, and by no other byte.
pub(crate) fn ask_of(cursor: &mut Cursor<'_>) -> Result<bool, CopyFault>
    ensures { Gives result cursor.new (ask_at cursor.old) }
{
    let byte = cursor.u8().ok_or(CopyFault::Short)?;
    Ok(byte == ASKS)
}

/// Nothing may stand after a body.
pub(crate) fn end_of(cursor: &Cursor<'_>) -> Result<(), CopyFault>
    ensures { result ≡ nothing_left cursor.now }
{
    if cursor.rest().is_empty() {
        Ok(())
    } else {
        Err(CopyFault::Trailing)
    }
}
