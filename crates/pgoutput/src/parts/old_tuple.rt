//! The old row in an Update or a Delete: what of it is sent, its reader and its writer.

ghost use Rattle.std.specs.Prelude.{◌≡◌};
ghost use Rattle.pqformat.specs.Putting.{Puts};
ghost use Rattle.pgoutput.specs.Reading.{Gives};
ghost use Rattle.pgoutput.specs.OldTuple.{old_tuple, old_tuple_at, IsShortOldTuple};

use crate::fault::PgoutputError;
use crate::parts::fields::byte_of;
use crate::parts::tuple::{Cell, put_tuple, tuple_of};
use bytes::BytesMut;
use pqformat::{Cursor, Items, put_byte};
use std::alloc::{AllocError, Global};

/// The letter before the cells of the key.
pub const KEY: u8 = b'K';

/// The letter before a whole old row.
pub const OLD: u8 = b'O';

/// The old row (PostgreSQL 15, 55.9), a cell for each column of the table's Relation.
///
/// ```text
/// Byte1('K') | TupleData old, null but for the columns of the identity
/// Byte1('O') | TupleData old
/// ```
#[derive(Debug, Drop, PartialEq)]
pub enum OldTuple {
    /// The columns of the replica identity, and null for the others.
    Key(Items<Cell>),
    /// All columns, where the replica identity is full.
    Full(Items<Cell>),
}

#[tactic(auto, unfolding(crate::specs::OldTuple::old_tuple_at))]
pub(crate) fn old_tuple_of(
    alloc: Global,
    cursor: &mut Cursor<'_>,
) -> Result<OldTuple, PgoutputError>
    ensures { Gives result cursor.new (old_tuple_at cursor.old) }
{
    match byte_of(cursor)? {
        KEY => Ok(OldTuple::Key(tuple_of(alloc, cursor)?)),
        OLD => Ok(OldTuple::Full(tuple_of(alloc, cursor)?)),
        _ => Err(PgoutputError::BadMark),
    }
}

#[tactic(auto, using(pqformat::proofs::Putting::in_place))]
pub(crate) fn put_old_tuple(out: &mut BytesMut, old: &OldTuple) -> Result<(), AllocError>
    requires { IsShortOldTuple old.now }
    ensures { Puts result out.old.items out.new.items (old_tuple old.now) }
{
    match old {
        OldTuple::Key(cells) => {
            put_byte(out, KEY)?;
            put_tuple(out, cells)
        }
        OldTuple::Full(cells) => {
            put_byte(out, OLD)?;
            put_tuple(out, cells)
        }
    }
}
