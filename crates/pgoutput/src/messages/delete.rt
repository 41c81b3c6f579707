//! Delete, a row that is gone: its type, its reader and its writer.

ghost use Rattle.std.specs.Prelude.{◌≡◌};
ghost use Rattle.pqformat.specs.Putting.{Puts};
ghost use Rattle.pgoutput.specs.Reading.{Gives};
ghost use Rattle.pgoutput.specs.Delete.{delete, delete_at, IsShortDelete};

use crate::fault::PgoutputError;
use crate::parts::fields::number32_of;
use crate::parts::old_tuple::{OldTuple, old_tuple_of, put_old_tuple};
use bytes::BytesMut;
use pqformat::{Cursor, put_int32};
use std::alloc::{AllocError, Global};

/// The kind byte of Delete.
pub const DELETE: u8 = b'D';

/// Delete (PostgreSQL 15, 55.9).
///
/// ```text
/// Byte1('D') | Int32 oid | Byte1('K' or 'O') | TupleData old
/// ```
#[derive(Debug, Drop, PartialEq)]
pub struct Delete {
    /// The OID of the table.
    pub oid: u32,
    pub old: OldTuple,
}

/// The fields of Delete, which stand after its kind byte; or the leftmost fault: `Short` (O1) where they aren't there whole,
/// `BadMark` (O3) at a letter, count or length that is none of its field, `BadText` (O4) at a text that isn't UTF-8. Or
/// `Memory` (O6).
#[tactic(auto, unfolding(crate::specs::Delete::delete_at))]
pub fn delete_of(alloc: Global, cursor: &mut Cursor<'_>) -> Result<Delete, PgoutputError>
    ensures { Gives result cursor.new (delete_at cursor.old) }
{
    let oid = number32_of(cursor)?;
    let old = old_tuple_of(alloc, cursor)?;
    Ok(Delete { oid, old })
}

/// Adds the fields of Delete, after its kind byte. `AllocError` where memory is refused; some of them may have been added then.
#[tactic(auto, using(pqformat::proofs::Putting::in_place))]
pub fn put_delete(out: &mut BytesMut, message: &Delete) -> Result<(), AllocError>
    requires { IsShortDelete message.now }
    ensures { Puts result out.old.items out.new.items (delete message.now) }
{
    put_int32(out, message.oid)?;
    put_old_tuple(out, &message.old)
}
