//! The fields of which messages are made: signed numbers, counts, letters, names and texts, read and written.

ghost use Rattle.std.specs.Prelude.{◌≡◌, ◌≢◌, ◌^◌, ◌<◌, length, Err};
ghost use Rattle.std.specs.Int.{w32, w64, cast_unsigned};
ghost use Rattle.pqformat.specs.Fields.{byte_at, int32, int64, number_at};
ghost use Rattle.pqformat.specs.Putting.{Puts};
ghost use Rattle.pgoutput.specs.Reading.{Gives, expected_letter, short, count16_at, count32_at, signed32_at, signed64_at, name_at, text_at};
ghost use Rattle.pgoutput.specs.Tuple.{counted_text};

use crate::fault::PgoutputError;
use bytes::BytesMut;
use pqformat::{Cursor, Text, put_bytes, put_int32, put_int64, utf8_of};
use std::alloc::{AllocError, Global};

pub(crate) fn byte_of(cursor: &mut Cursor<'_>) -> Result<u8, PgoutputError>
    ensures exact { Gives result cursor.new (short (byte_at cursor.old)) }
    ensures steady { result ≢ Err PgoutputError.Memory }
{
    cursor.u8().ok_or(PgoutputError::Short)
}

pub(crate) fn number32_of(cursor: &mut Cursor<'_>) -> Result<u32, PgoutputError>
    ensures exact { Gives result cursor.new (short (number_at w32 cursor.old)) }
    ensures steady { result ≢ Err PgoutputError.Memory }
{
    cursor.u32().ok_or(PgoutputError::Short)
}

pub(crate) fn number64_of(cursor: &mut Cursor<'_>) -> Result<u64, PgoutputError>
    ensures exact { Gives result cursor.new (short (number_at w64 cursor.old)) }
    ensures steady { result ≢ Err PgoutputError.Memory }
{
    cursor.u64().ok_or(PgoutputError::Short)
}

/// Moves past this letter; another one is O3.
pub(crate) fn expected_of(cursor: &mut Cursor<'_>, letter: u8) -> Result<(), PgoutputError>
    ensures exact { Gives result cursor.new (expected_letter letter cursor.old) }
    ensures steady { result ≢ Err PgoutputError.Memory }
{
    let found = byte_of(cursor)?;
    if found != letter {
        return Err(PgoutputError::BadMark);
    }
    Ok(())
}

/// A count of two bytes; one with its top bit set is O3.
pub(crate) fn count16_of(cursor: &mut Cursor<'_>) -> Result<u16, PgoutputError>
    ensures { Gives result cursor.new (count16_at cursor.old) }
{
    let count = cursor.u16().ok_or(PgoutputError::Short)?;
    if count < 1 << 15 {
        return Ok(count);
    }
    Err(PgoutputError::BadMark)
}

/// A length of four bytes; one with its top bit set is O3.
pub(crate) fn count32_of(cursor: &mut Cursor<'_>) -> Result<u32, PgoutputError>
    ensures { Gives result cursor.new (count32_at cursor.old) }
{
    let count = number32_of(cursor)?;
    if count < 1 << 31 {
        return Ok(count);
    }
    Err(PgoutputError::BadMark)
}

pub(crate) fn signed32_of(cursor: &mut Cursor<'_>) -> Result<i32, PgoutputError>
    ensures { Gives result cursor.new (signed32_at cursor.old) }
{
    let number = number32_of(cursor)?;
    Ok(number.cast_signed())
}

pub(crate) fn signed64_of(cursor: &mut Cursor<'_>) -> Result<i64, PgoutputError>
    ensures exact { Gives result cursor.new (signed64_at cursor.old) }
    ensures steady { result ≢ Err PgoutputError.Memory }
{
    let number = number64_of(cursor)?;
    Ok(number.cast_signed())
}

/// The text up to a zero byte; one that isn't UTF-8 is O4.
#[tactic(auto, unfolding(crate::specs::Reading::name_at))]
pub(crate) fn name_of(alloc: Global, cursor: &mut Cursor<'_>) -> Result<Text, PgoutputError>
    ensures { Gives result cursor.new (name_at cursor.old) }
{
    let bytes = cursor.cstr().ok_or(PgoutputError::Short)?;
    let text = utf8_of(bytes).ok_or(PgoutputError::BadText)?;
    Ok(Text::copy_of(alloc, text)?)
}

/// The text after a length; one that isn't UTF-8 is O4.
#[tactic(auto, unfolding(crate::specs::Reading::text_at))]
pub(crate) fn text_of(alloc: Global, cursor: &mut Cursor<'_>) -> Result<Text, PgoutputError>
    ensures { Gives result cursor.new (text_at cursor.old) }
{
    let len = count32_of(cursor)?;
    let bytes = cursor.take(len as usize).ok_or(PgoutputError::Short)?;
    let text = utf8_of(bytes).ok_or(PgoutputError::BadText)?;
    Ok(Text::copy_of(alloc, text)?)
}

pub(crate) fn put_signed32(out: &mut BytesMut, number: i32) -> Result<(), AllocError>
    ensures { Puts result out.old.items out.new.items (int32 (cast_unsigned w32 number)) }
{
    put_int32(out, number.cast_unsigned())
}

pub(crate) fn put_signed64(out: &mut BytesMut, number: i64) -> Result<(), AllocError>
    ensures { Puts result out.old.items out.new.items (int64 (cast_unsigned w64 number)) }
{
    put_int64(out, number.cast_unsigned())
}

/// A text after its length.
#[tactic(auto, using(pqformat::proofs::Putting::in_place))]
pub(crate) fn put_text(out: &mut BytesMut, text: &Text) -> Result<(), AllocError>
    requires { length text.now < 2 ^ 31 }
    ensures { Puts result out.old.items out.new.items (counted_text text.now) }
{
    let bytes = text.as_str().as_bytes();
    put_int32(out, bytes.len() as u32)?;
    put_bytes(out, bytes)
}
