//! Update, a changed row: its type, its reader and its writer.

ghost use Rattle.std.specs.Prelude.{◌≡◌};
ghost use Rattle.pqformat.specs.Putting.{Puts};
ghost use Rattle.pgoutput.specs.Reading.{Gives};
ghost use Rattle.pgoutput.specs.Update.{update, update_at, old_if_any, rows_at, tuples_at, IsShortIfAny, IsShortUpdate};

use crate::fault::PgoutputError;
use crate::messages::insert::NEW;
use crate::parts::fields::{byte_of, expected_of, number32_of};
use crate::parts::old_tuple::{KEY, OLD, OldTuple, put_old_tuple};
use crate::parts::tuple::{Cell, put_tuple, tuple_of};
use bytes::BytesMut;
use pqformat::{Cursor, Items, put_byte, put_int32};
use std::alloc::{AllocError, Global};

/// The kind byte of Update.
pub const UPDATE: u8 = b'U';

/// Update (PostgreSQL 15, 55.9).
///
/// ```text
/// Byte1('U') | Int32 oid | Byte1('K' or 'O') | TupleData old | Byte1('N') | TupleData new
///            |             or nothing                        |
/// ```
#[derive(Debug, Drop, PartialEq)]
pub struct Update {
    /// The OID of the table.
    pub oid: u32,
    /// The old row, where the key changed or the replica identity is full.
    pub old: Option<OldTuple>,
    /// The new row, a cell for each column of the table's Relation.
    pub new: Items<Cell>,
}

/// The fields of Update, which stand after its kind byte; or the leftmost fault: `Short` (O1) where they aren't there whole,
/// `BadMark` (O3) at a letter, count or length that is none of its field, `BadText` (O4) at a text that isn't UTF-8. Or
/// `Memory` (O6).
#[tactic(auto, unfolding(crate::specs::Update::update_at))]
pub fn update_of(alloc: Global, cursor: &mut Cursor<'_>) -> Result<Update, PgoutputError>
    ensures { Gives result cursor.new (update_at cursor.old) }
{
    let oid = number32_of(cursor)?;
    let (old, new) = rows_of(alloc, cursor)?;
    Ok(Update { oid, old, new })
}

/// The old row, if it is there, and the new one.
#[tactic(auto, unfolding(crate::specs::Update::rows_at))]
fn rows_of(
    alloc: Global,
    cursor: &mut Cursor<'_>,
) -> Result<(Option<OldTuple>, Items<Cell>), PgoutputError>
    ensures { Gives result cursor.new (rows_at cursor.old) }
{
    match byte_of(cursor)? {
        NEW => Ok((None, tuple_of(alloc, cursor)?)),
        KEY => {
            let (old, new) = tuples_of(alloc, cursor)?;
            Ok((Some(OldTuple::Key(old)), new))
        }
        OLD => {
            let (old, new) = tuples_of(alloc, cursor)?;
            Ok((Some(OldTuple::Full(old)), new))
        }
        _ => Err(PgoutputError::BadMark),
    }
}

/// The cells of the old row, and those of the new one after its letter.
#[tactic(auto, unfolding(crate::specs::Update::tuples_at))]
fn tuples_of(
    alloc: Global,
    cursor: &mut Cursor<'_>,
) -> Result<(Items<Cell>, Items<Cell>), PgoutputError>
    ensures { Gives result cursor.new (tuples_at cursor.old) }
{
    let old = tuple_of(alloc, cursor)?;
    expected_of(cursor, NEW)?;
    let new = tuple_of(alloc, cursor)?;
    Ok((old, new))
}

/// Adds the fields of Update, after its kind byte. `AllocError` where memory is refused; some of them may have been added then.
#[tactic(auto, using(pqformat::proofs::Putting::in_place))]
pub fn put_update(out: &mut BytesMut, message: &Update) -> Result<(), AllocError>
    requires { IsShortUpdate message.now }
    ensures { Puts result out.old.items out.new.items (update message.now) }
{
    put_int32(out, message.oid)?;
    put_if_any(out, &message.old)?;
    put_byte(out, NEW)?;
    put_tuple(out, &message.new)
}

fn put_if_any(out: &mut BytesMut, old: &Option<OldTuple>) -> Result<(), AllocError>
    requires { IsShortIfAny old.now }
    ensures { Puts result out.old.items out.new.items (old_if_any old.now) }
{
    match old {
        Some(old) => put_old_tuple(out, old),
        None => Ok(()),
    }
}
