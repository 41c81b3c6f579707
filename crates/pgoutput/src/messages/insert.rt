//! Insert, a new row: its type, its reader and its writer.

ghost use Rattle.std.specs.Prelude.{◌≡◌};
ghost use Rattle.pqformat.specs.Putting.{Puts};
ghost use Rattle.pgoutput.specs.Reading.{Gives};
ghost use Rattle.pgoutput.specs.Insert.{insert, insert_at, IsShortInsert};

use crate::fault::PgoutputError;
use crate::parts::fields::{expected_of, number32_of};
use crate::parts::tuple::{Cell, put_tuple, sent_tuple_of};
use bytes::BytesMut;
use pqformat::{Cursor, Items, put_byte, put_int32};
use std::alloc::{AllocError, Global};

/// The kind byte of Insert.
pub const INSERT: u8 = b'I';

/// The letter before a new tuple.
pub const NEW: u8 = b'N';

/// Insert (PostgreSQL 15, 55.9).
///
/// ```text
/// Byte1('I') | Int32 oid | Byte1('N') | TupleData new
/// ```
#[derive(Debug, Drop, PartialEq)]
pub struct Insert {
    /// The OID of the table.
    pub oid: u32,
    /// The new row, a cell for each column of the table's Relation. Each value is sent: none is `Unchanged`.
    pub new: Items<Cell>,
}

/// The fields of Insert, which stand after its kind byte; or the leftmost fault: `Short` (O1) where they aren't there whole,
/// `BadMark` (O3) at a letter, count or length that is none of its field, as at a cell that is unchanged, `BadText` (O4) at a
/// text that isn't UTF-8. Or `Memory` (O6).
#[tactic(auto, unfolding(crate::specs::Insert::insert_at))]
pub fn insert_of(alloc: Global, cursor: &mut Cursor<'_>) -> Result<Insert, PgoutputError>
    ensures { Gives result cursor.new (insert_at cursor.old) }
{
    let oid = number32_of(cursor)?;
    expected_of(cursor, NEW)?;
    let new = sent_tuple_of(alloc, cursor)?;
    Ok(Insert { oid, new })
}

/// Adds the fields of Insert, after its kind byte. `AllocError` where memory is refused; some of them may have been added then.
#[tactic(auto, using(pqformat::proofs::Putting::in_place))]
pub fn put_insert(out: &mut BytesMut, message: &Insert) -> Result<(), AllocError>
    requires { IsShortInsert message.now }
    ensures { Puts result out.old.items out.new.items (insert message.now) }
{
    put_int32(out, message.oid)?;
    put_byte(out, NEW)?;
    put_tuple(out, &message.new)
}
