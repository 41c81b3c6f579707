//! Truncate, tables whose rows are all gone: its type, its reader and its writer.

ghost use Rattle.std.specs.Prelude.{◌≡◌};
ghost use Rattle.pqformat.specs.Fields.{int32};
ghost use Rattle.pqformat.specs.Putting.{Puts};
ghost use Rattle.std.specs.List.{flat_map};
ghost use Rattle.pgoutput.specs.Reading.{Gives};
ghost use Rattle.pgoutput.specs.Truncate.{truncate, truncate_at, options_letter, IsShortTruncate};

use crate::fault::PgoutputError;
use crate::parts::fields::{count32_of, number32_of};
use crate::parts::letter::{Letter, told_of};
use crate::parts::list::{PutItem, ReadItem, items_of, put_each};
use bytes::BytesMut;
use pqformat::{Cursor, Items, put_byte, put_int32};
use std::alloc::{AllocError, Global};

/// The kind byte of Truncate.
pub const TRUNCATE: u8 = b'T';

/// The bytes of the options.
pub const NO_OPTIONS: u8 = 0;

pub const CASCADE: u8 = 1;

pub const RESTART_IDENTITY: u8 = 2;

pub const CASCADE_AND_RESTART_IDENTITY: u8 = 3;

/// Truncate (PostgreSQL 15, 55.9).
///
/// ```text
/// Byte1('T') | Int32 count | Int8 options | for each table: Int32 oid
/// ```
#[derive(Debug, Drop, PartialEq)]
pub struct Truncate {
    pub options: TruncateOptions,
    /// The OIDs of the tables.
    pub oids: Items<u32>,
}

/// What a TRUNCATE was asked besides; the bits 1 and 2 of the options.
#[derive(Clone, Copy, Debug, PartialEq, Eq)]
pub struct TruncateOptions {
    pub cascade: bool,
    pub restart_identity: bool,
}

/// The fields of Truncate, which stand after its kind byte; or the leftmost fault: `Short` (O1) where they aren't there whole,
/// `BadMark` (O3) at a count with its top bit set, or at options that aren't 0 to 3. Or `Memory` (O6).
#[tactic(auto, unfolding(crate::specs::Truncate::truncate_at))]
pub fn truncate_of(alloc: Global, cursor: &mut Cursor<'_>) -> Result<Truncate, PgoutputError>
    ensures { Gives result cursor.new (truncate_at cursor.old) }
{
    let count = count32_of(cursor)?;
    let options = told_of::<TruncateOptions>(cursor)?;
    let oids = items_of::<u32>(alloc, cursor, count as usize)?;
    Ok(Truncate { options, oids })
}

impl Letter for TruncateOptions {
    ghost use Rattle.pgoutput.specs.Truncate.{options_of};

    ghost told_by = { options_of };

    fn of(letter: u8) -> Option<TruncateOptions> {
        let (cascade, restart_identity) = match letter {
            NO_OPTIONS => (false, false),
            CASCADE => (true, false),
            RESTART_IDENTITY => (false, true),
            CASCADE_AND_RESTART_IDENTITY => (true, true),
            _ => return None,
        };
        Some(TruncateOptions {
            cascade,
            restart_identity,
        })
    }
}

fn letter_of(options: TruncateOptions) -> u8
    ensures { result ≡ options_letter options }
{
    match (options.cascade, options.restart_identity) {
        (false, false) => NO_OPTIONS,
        (true, false) => CASCADE,
        (false, true) => RESTART_IDENTITY,
        (true, true) => CASCADE_AND_RESTART_IDENTITY,
    }
}

/// Adds the fields of Truncate, after its kind byte. `AllocError` where memory is refused; some of them may have been added
/// then.
#[tactic(auto, using(pqformat::proofs::Putting::in_place))]
pub fn put_truncate(out: &mut BytesMut, message: &Truncate) -> Result<(), AllocError>
    requires { IsShortTruncate message.now }
    ensures { Puts result out.old.items out.new.items (truncate message.now) }
{
    put_int32(out, message.oids.len() as u32)?;
    put_byte(out, letter_of(message.options))?;
    put_each(out, message.oids.as_slice())?;
    Ok(())
}

/// The OID of a table in a list.
impl ReadItem for u32 {
    ghost use Rattle.pgoutput.specs.Truncate.{oid_at};

    type Item = u32;

    ghost item_at = { oid_at };

    fn read(_alloc: Global, cursor: &mut Cursor<'_>) -> Result<u32, PgoutputError> {
        number32_of(cursor)
    }
}

impl PutItem for u32 {
    ghost use Rattle.pqformat.specs.Fields.{int32};

    ghost spelled = { int32 };

    ghost is_short = { λ oid. Unit {0} };

    fn put(&self, out: &mut BytesMut) -> Result<(), AllocError> {
        put_int32(out, *self)
    }
}
