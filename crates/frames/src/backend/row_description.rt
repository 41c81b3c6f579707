//! RowDescription, the columns of the rows that follow: its type, its reader and its writer.

ghost use Rattle.std.specs.Prelude.{◌≡◌, length};
ghost use Rattle.frames.specs.Body.{GivesAt, ReadsAt, checked_at, passed_part};
ghost use Rattle.pqformat.specs.Putting.{Puts};
ghost use Rattle.frames.specs.RowDescription.{column, column_type, column_at, type_at, is_column_text};

use crate::fault::FrameFault;
use crate::parts::body::{is_valid_text, text_of};
use crate::parts::field::{int16, int32, string};
use crate::parts::list::{Field, Put};
use bytes::BytesMut;
use pqformat::{Cursor, Items, Text, put_int16, put_int32, put_string};
use std::alloc::{AllocError, Global};

/// The type byte of RowDescription.
pub const ROW_DESCRIPTION: u8 = b'T';

/// RowDescription (PostgreSQL 15, 55.7).
///
/// ```text
/// Byte1('T') | Int32 length, itself counted | Int16 count | each column
/// ```
#[derive(Debug, Drop)]
pub struct RowDescription {
    pub columns: Items<ColumnDescription>,
}

/// A column of a row. `table` and `attribute` are 0 where it is no table's; `format` is 0 for text.
///
/// ```text
/// String name | Int32 table | Int16 attribute | the type | Int16 format
/// ```
#[derive(Debug, Drop)]
pub struct ColumnDescription {
    pub name: Text,
    pub table: u32,
    pub attribute: i16,
    pub data_type: ColumnType,
    pub format: u16,
}

/// The type of a column. The size is below 0 where values have many; the modifier is -1 where the type has none.
///
/// ```text
/// Int32 type | Int16 size | Int32 modifier
/// ```
#[derive(Clone, Copy, Debug, PartialEq, Eq)]
pub struct ColumnType {
    pub oid: u32,
    pub size: i16,
    pub modifier: i32,
}

#[tactic(auto, unfolding(crate::specs::RowDescription::type_at))]
fn type_of(cursor: &mut Cursor<'_>) -> Result<ColumnType, FrameFault>
    ensures { ReadsAt result cursor.new (passed_part (λ t. t) (type_at cursor.old)) }
{
    let oid = int32(cursor)?;
    let size = int16(cursor)?.cast_signed();
    let modifier = int32(cursor)?.cast_signed();
    Ok(ColumnType {
        oid,
        size,
        modifier,
    })
}

impl Field for ColumnDescription {
    ghost use Rattle.frames.specs.RowDescription.{column_at, is_column_text};

    ghost field_at = { column_at };

    ghost is_text = { is_column_text };

    #[tactic(auto, unfolding(crate::specs::RowDescription::column_at))]
    fn pass(cursor: &mut Cursor<'_>) -> Result<bool, FrameFault> {
        let name = string(cursor)?;
        int32(cursor)?;
        int16(cursor)?;
        type_of(cursor)?;
        int16(cursor)?;
        Ok(is_valid_text(name))
    }

    #[tactic(auto, unfolding(crate::specs::RowDescription::column_at))]
    fn read(alloc: Global, cursor: &mut Cursor<'_>) -> Result<Self, FrameFault> {
        let name = string(cursor)?;
        let table = int32(cursor)?;
        let attribute = int16(cursor)?.cast_signed();
        let data_type = type_of(cursor)?;
        let format = int16(cursor)?;
        let name = text_of(alloc, name)?;
        Ok(ColumnDescription {
            name,
            table,
            attribute,
            data_type,
            format,
        })
    }
}

impl Put for ColumnDescription {
    ghost use Rattle.frames.specs.RowDescription.{column};

    ghost spelled = { column };

    ghost is_short = { λ _. Unit {0} };

    #[tactic(auto, using(crate::proofs::Lengths::length_column))]
    fn len(&self) -> usize {
        self.name.as_str().len() + 19
    }

    #[tactic(auto, using(pqformat::proofs::Putting::in_place))]
    fn put(&self, out: &mut BytesMut) -> Result<(), AllocError> {
        put_string(out, self.name.as_str())?;
        put_int32(out, self.table)?;
        put_int16(out, self.attribute.cast_unsigned())?;
        put_type(out, self.data_type)?;
        put_int16(out, self.format)
    }
}

#[tactic(auto, using(pqformat::proofs::Putting::in_place))]
fn put_type(out: &mut BytesMut, data_type: ColumnType) -> Result<(), AllocError>
    ensures { Puts result out.old.items out.new.items (column_type data_type) }
{
    put_int32(out, data_type.oid)?;
    put_int16(out, data_type.size.cast_unsigned())?;
    put_int32(out, data_type.modifier.cast_unsigned())
}
