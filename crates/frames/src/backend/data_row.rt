//! DataRow, the values of one row: its type, its reader and its writer.

ghost use Rattle.std.specs.Prelude.{◌≡◌, Err, IsOk, length};
ghost use Rattle.frames.specs.Body.{GivesAt, ReadsAt, checked_at, passed_part, whole, always};
ghost use Rattle.frames.specs.Frame.{Gives};
ghost use Rattle.frames.specs.Plain.{counted_at};
ghost use Rattle.frames.specs.Raw.{as_value};
ghost use Rattle.pqformat.specs.Putting.{Puts};
ghost use Rattle.frames.specs.DataRow.{data_value, value_at, FitsValue};

use crate::fault::FrameFault;
use crate::parts::field::int32;
use crate::parts::list::{Field, Put, counted_of};
use bytes::BytesMut;
use pqformat::{Cursor, Items, put_bytes, put_int32};
use std::alloc::{AllocError, Global};

/// The type byte of DataRow.
pub const DATA_ROW: u8 = b'D';

/// The length of a null: -1 in two's complement.
const NO_LENGTH: u32 = 4_294_967_295;

/// DataRow (PostgreSQL 15, 55.7).
///
/// ```text
/// Byte1('D') | Int32 length, itself counted | Int16 count | each value
/// ```
#[derive(Debug, Drop)]
pub struct DataRow {
    pub values: Items<DataValue>,
}

/// A value of a row.
///
/// ```text
/// Int32 -1 | or: Int32 length | Byten value
/// ```
#[derive(Debug, Drop)]
pub enum DataValue {
    Null,
    Bytes(Items<u8>),
}

/// The bytes after the length of a value; None: a null.
#[tactic(auto, unfolding(crate::specs::DataRow::value_at))]
fn lent_value<'a>(cursor: &mut Cursor<'a>) -> Result<Option<&'a [u8]>, FrameFault>
    ensures { ReadsAt (as_value result) cursor.new (passed_part (λ v. v) (value_at cursor.old)) }
{
    let length = int32(cursor)?;
    if length == NO_LENGTH {
        return Ok(None);
    }
    if length >= 1 << 31 {
        return Err(FrameFault::BadBody);
    }
    let bytes = cursor.take(length as usize).ok_or(FrameFault::BadBody)?;
    Ok(Some(bytes))
}

impl Field for DataValue {
    ghost use Rattle.frames.specs.Body.{always};
    ghost use Rattle.frames.specs.DataRow.{value_at};

    ghost field_at = { value_at };

    ghost is_text = { always };

    fn pass(cursor: &mut Cursor<'_>) -> Result<bool, FrameFault> {
        lent_value(cursor)?;
        Ok(true)
    }

    fn read(alloc: Global, cursor: &mut Cursor<'_>) -> Result<Self, FrameFault> {
        match lent_value(cursor)? {
            None => Ok(DataValue::Null),
            Some(bytes) => Ok(DataValue::Bytes(Items::new(Vec::from_slice(alloc, bytes)?))),
        }
    }
}

#[tactic(auto, using(crate::proofs::Listed::untested))]
pub(crate) fn data_row_of(alloc: Global, body: &[u8]) -> Result<Items<DataValue>, FrameFault>
    ensures exact { Gives result (whole always (counted_at value_at body.now)) }
    ensures memory { result ≡ Err FrameFault.Memory →
        IsOk (whole always (counted_at value_at body.now)) }
{
    counted_of(alloc, &mut Cursor::new(body))
}

impl Put for DataValue {
    ghost use Rattle.frames.specs.DataRow.{data_value, FitsValue};

    ghost spelled = { data_value };

    ghost is_short = { FitsValue };

    #[tactic(auto, using(crate::proofs::Lengths::length_value))]
    fn len(&self) -> usize {
        match self {
            DataValue::Null => 4,
            DataValue::Bytes(bytes) => 4 + bytes.len(),
        }
    }

    #[tactic(auto, using(pqformat::proofs::Putting::in_place))]
    fn put(&self, out: &mut BytesMut) -> Result<(), AllocError> {
        match self {
            DataValue::Null => put_int32(out, NO_LENGTH),
            DataValue::Bytes(bytes) => {
                put_int32(out, bytes.len() as u32)?;
                put_bytes(out, bytes.as_slice())
            }
        }
    }
}
