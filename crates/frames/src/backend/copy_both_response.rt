//! CopyBothResponse, the beginning of copy mode in both directions: its type, its reader and its writer.

ghost use Rattle.std.specs.Prelude.{◌≡◌, Err, IsOk, length};
ghost use Rattle.pqformat.specs.Fields.{int16};
ghost use Rattle.frames.specs.Body.{GivesAt, ReadsAt, checked_at, passed_part, whole, always};
ghost use Rattle.frames.specs.Frame.{Gives};
ghost use Rattle.frames.specs.Plain.{counted_at, format_at, copy_both_at};
ghost use Rattle.pqformat.specs.Putting.{Puts};

use crate::fault::FrameFault;
use crate::parts::field::{byte, int16};
use crate::parts::list::{Field, Put, counted_of};
use bytes::BytesMut;
use pqformat::{Cursor, Items, put_int16};
use std::alloc::{AllocError, Global};

/// The type byte of CopyBothResponse.
pub const COPY_BOTH_RESPONSE: u8 = b'W';

/// CopyBothResponse (PostgreSQL 15, 55.7): the format of the stream, 0 for text, and that of each column. Replication
/// has no columns.
///
/// ```text
/// Byte1('W') | Int32 length, itself counted | Int8 format | Int16 count | each: Int16 format
/// ```
#[derive(Debug, Drop)]
pub struct CopyBothResponse {
    pub format: u8,
    pub formats: Items<u16>,
}

impl Field for u16 {
    ghost use Rattle.frames.specs.Body.{always};
    ghost use Rattle.frames.specs.Plain.{format_at};

    ghost field_at = { format_at };

    ghost is_text = { always };

    fn pass(cursor: &mut Cursor<'_>) -> Result<bool, FrameFault> {
        int16(cursor)?;
        Ok(true)
    }

    fn read(_alloc: Global, cursor: &mut Cursor<'_>) -> Result<Self, FrameFault> {
        int16(cursor)
    }
}

impl Put for u16 {
    ghost use Rattle.pqformat.specs.Fields.{int16};

    ghost spelled = { int16 };

    ghost is_short = { λ _. Unit {0} };

    #[tactic(auto, unfolding(pqformat::specs::Fields::int16))]
    fn len(&self) -> usize {
        2
    }

    fn put(&self, out: &mut BytesMut) -> Result<(), AllocError> {
        put_int16(out, *self)
    }
}

#[tactic(auto, using(crate::proofs::Listed::untested))]
fn formats_of(alloc: Global, cursor: &mut Cursor<'_>) -> Result<Items<u16>, FrameFault>
    ensures exact { Gives result (whole always (counted_at format_at cursor.old)) }
    ensures memory { result ≡ Err FrameFault.Memory →
        IsOk (whole always (counted_at format_at cursor.old)) }
{
    counted_of(alloc, cursor)
}

#[tactic(auto, unfolding(crate::specs::Plain::copy_both_at))]
pub(crate) fn copy_both_of(alloc: Global, body: &[u8]) -> Result<CopyBothResponse, FrameFault>
    ensures exact { Gives result (whole always (copy_both_at body.now)) }
    ensures memory { result ≡ Err FrameFault.Memory → IsOk (whole always (copy_both_at body.now)) }
{
    let mut cursor = Cursor::new(body);
    let format = byte(&mut cursor)?;
    let formats = formats_of(alloc, &mut cursor)?;
    Ok(CopyBothResponse { format, formats })
}
