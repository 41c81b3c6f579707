//! Relation, the columns of a table, before the first message that names it: its type, its reader and its writer.

ghost use Rattle.std.specs.Prelude.{◌≡◌};
ghost use Rattle.pqformat.specs.Putting.{Puts};
ghost use Rattle.pgoutput.specs.Reading.{Gives};
ghost use Rattle.pgoutput.specs.Relation.{identity_letter, column_at, columns_at, relation, relation_at, IsShortRelation};

use crate::fault::PgoutputError;
use crate::parts::fields::{count16_of, name_of, number32_of, put_signed32, signed32_of};
use crate::parts::letter::{Letter, told_of};
use crate::parts::list::{PutItem, ReadItem, items_of, put_items};
use bytes::BytesMut;
use pqformat::{Cursor, Items, Text, put_byte, put_int32, put_string};
use std::alloc::{AllocError, Global};

/// The kind byte of Relation.
pub const RELATION: u8 = b'R';

/// The letters of the identities.
pub const IDENTITY_DEFAULT: u8 = b'd';

pub const IDENTITY_NOTHING: u8 = b'n';

pub const IDENTITY_FULL: u8 = b'f';

pub const IDENTITY_INDEX: u8 = b'i';

/// The flags of a column that belongs to the identity, and of one that doesn't.
pub const KEY_FLAG: u8 = 1;

pub const NO_FLAG: u8 = 0;

/// Relation (PostgreSQL 15, 55.9).
///
/// ```text
/// Byte1('R') | Int32 oid | String namespace | String name | Byte1 identity: d, n, f or i
///     | Int16 count | for each column: Int8 flags, 1: is_key | String name | Int32 kind | Int32 modifier
/// ```
#[derive(Debug, Drop, PartialEq)]
pub struct Relation {
    /// The OID of the table.
    pub oid: u32,
    pub namespace: Text,
    pub name: Text,
    pub identity: Identity,
    pub columns: Items<Column>,
}

/// The replica identity of a table.
#[derive(Clone, Copy, Debug, PartialEq, Eq)]
pub enum Identity {
    Default,
    Nothing,
    Full,
    Index,
}

/// A column of a Relation.
#[derive(Debug, Drop, PartialEq)]
pub struct Column {
    /// Whether it belongs to the identity.
    pub is_key: bool,
    pub name: Text,
    /// The OID of its type.
    pub kind: u32,
    /// The type modifier, -1 for none.
    pub modifier: i32,
}

/// The fields of Relation, which stand after its kind byte; or the leftmost fault: `Short` (O1) where they aren't there whole,
/// `BadMark` (O3) at an identity, a flag or a count that is none, `BadText` (O4) at a name that isn't UTF-8. Or `Memory` (O6).
#[tactic(auto, unfolding(crate::specs::Relation::relation_at))]
pub fn relation_of(alloc: Global, cursor: &mut Cursor<'_>) -> Result<Relation, PgoutputError>
    ensures { Gives result cursor.new (relation_at cursor.old) }
{
    let oid = number32_of(cursor)?;
    let namespace = name_of(alloc, cursor)?;
    let name = name_of(alloc, cursor)?;
    let identity = told_of::<Identity>(cursor)?;
    let columns = columns_of(alloc, cursor)?;
    Ok(Relation {
        oid,
        namespace,
        name,
        identity,
        columns,
    })
}

impl Letter for Identity {
    ghost use Rattle.pgoutput.specs.Relation.{identity_of};

    ghost told_by = { identity_of };

    fn of(letter: u8) -> Option<Identity> {
        match letter {
            IDENTITY_DEFAULT => Some(Identity::Default),
            IDENTITY_NOTHING => Some(Identity::Nothing),
            IDENTITY_FULL => Some(Identity::Full),
            IDENTITY_INDEX => Some(Identity::Index),
            _ => None,
        }
    }
}

#[tactic(auto, unfolding(crate::specs::Relation::columns_at))]
fn columns_of(alloc: Global, cursor: &mut Cursor<'_>) -> Result<Items<Column>, PgoutputError>
    ensures { Gives result cursor.new (columns_at cursor.old) }
{
    let count = count16_of(cursor)?;
    items_of::<Column>(alloc, cursor, count as usize)
}

#[tactic(auto, unfolding(crate::specs::Relation::column_at))]
fn column_of(alloc: Global, cursor: &mut Cursor<'_>) -> Result<Column, PgoutputError>
    ensures { Gives result cursor.new (column_at cursor.old) }
{
    let is_key = told_of::<bool>(cursor)?;
    let name = name_of(alloc, cursor)?;
    let kind = number32_of(cursor)?;
    let modifier = signed32_of(cursor)?;
    Ok(Column {
        is_key,
        name,
        kind,
        modifier,
    })
}

/// Adds the fields of Relation, after its kind byte. `AllocError` where memory is refused; some of them may have been added
/// then.
#[tactic(auto, using(pqformat::proofs::Putting::in_place))]
pub fn put_relation(out: &mut BytesMut, message: &Relation) -> Result<(), AllocError>
    requires { IsShortRelation message.now }
    ensures { Puts result out.old.items out.new.items (relation message.now) }
{
    put_int32(out, message.oid)?;
    put_string(out, message.namespace.as_str())?;
    put_string(out, message.name.as_str())?;
    put_byte(out, letter_of(message.identity))?;
    put_items(out, message.columns.as_slice())?;
    Ok(())
}

fn letter_of(identity: Identity) -> u8
    ensures { result ≡ identity_letter identity }
{
    match identity {
        Identity::Default => IDENTITY_DEFAULT,
        Identity::Nothing => IDENTITY_NOTHING,
        Identity::Full => IDENTITY_FULL,
        Identity::Index => IDENTITY_INDEX,
    }
}

impl ReadItem for Column {
    ghost use Rattle.pgoutput.specs.Relation.{column_at};

    type Item = Column;

    ghost item_at = { column_at };

    fn read(alloc: Global, cursor: &mut Cursor<'_>) -> Result<Column, PgoutputError> {
        column_of(alloc, cursor)
    }
}

impl PutItem for Column {
    ghost use Rattle.pgoutput.specs.Relation.{column};

    ghost spelled = { column };

    ghost is_short = { λ _. Unit {0} };

    #[tactic(auto, using(pqformat::proofs::Putting::in_place))]
    fn put(&self, out: &mut BytesMut) -> Result<(), AllocError> {
        put_byte(out, if self.is_key { KEY_FLAG } else { NO_FLAG })?;
        put_string(out, self.name.as_str())?;
        put_int32(out, self.kind)?;
        put_signed32(out, self.modifier)?;
        Ok(())
    }
}
