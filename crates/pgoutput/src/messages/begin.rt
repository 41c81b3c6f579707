//! Begin, before a transaction's messages: its type, its reader and its writer.

ghost use Rattle.std.specs.Prelude.{◌≡◌, ◌≢◌, Err};
ghost use Rattle.pqformat.specs.Putting.{Puts};
ghost use Rattle.pgoutput.specs.Reading.{Gives};
ghost use Rattle.pgoutput.specs.Begin.{begin, begin_at};

use crate::fault::PgoutputError;
use crate::parts::fields::{number32_of, number64_of, put_signed64, signed64_of};
use bytes::BytesMut;
use pqformat::{Cursor, put_int32, put_int64};
use std::alloc::AllocError;

/// The kind byte of Begin.
pub const BEGIN: u8 = b'B';

/// Begin (PostgreSQL 15, 55.9).
///
/// ```text
/// Byte1('B') | Int64 position | Int64 time | Int32 xid
/// ```
#[derive(Debug, Drop, PartialEq)]
pub struct Begin {
    /// The position at which the commit record starts.
    pub position: u64,
    /// The commit time, in microseconds since 2000-01-01.
    pub time: i64,
    /// The transaction's id.
    pub xid: u32,
}

/// The fields of Begin, which stand after its kind byte; or `Short` (O1), where they aren't there whole.
#[tactic(auto, unfolding(crate::specs::Begin::begin_at))]
pub fn begin_of(cursor: &mut Cursor<'_>) -> Result<Begin, PgoutputError>
    ensures exact { Gives result cursor.new (begin_at cursor.old) }
    ensures steady { result ≢ Err PgoutputError.Memory }
{
    Ok(Begin {
        position: number64_of(cursor)?,
        time: signed64_of(cursor)?,
        xid: number32_of(cursor)?,
    })
}

/// Adds the fields of Begin, after its kind byte. `AllocError` where memory is refused; some of them may have been added then.
#[tactic(auto, using(pqformat::proofs::Putting::in_place))]
pub fn put_begin(out: &mut BytesMut, message: &Begin) -> Result<(), AllocError>
    ensures { Puts result out.old.items out.new.items (begin message.now) }
{
    put_int64(out, message.position)?;
    put_signed64(out, message.time)?;
    put_int32(out, message.xid)
}
