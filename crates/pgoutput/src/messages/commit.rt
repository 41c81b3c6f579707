//! Commit, after a transaction's messages: its type, its reader and its writer.

ghost use Rattle.std.specs.Prelude.{◌≡◌, ◌≢◌, Err};
ghost use Rattle.pqformat.specs.Putting.{Puts};
ghost use Rattle.pgoutput.specs.Reading.{Gives};
ghost use Rattle.pgoutput.specs.Commit.{commit, commit_at};

use crate::fault::PgoutputError;
use crate::parts::fields::{expected_of, number64_of, put_signed64, signed64_of};
use bytes::BytesMut;
use pqformat::{Cursor, put_byte, put_int64};
use std::alloc::AllocError;

/// The kind byte of Commit.
pub const COMMIT: u8 = b'C';

/// The flags byte of every Commit: none is in use.
pub const COMMIT_FLAGS: u8 = 0;

/// Commit (PostgreSQL 15, 55.9).
///
/// ```text
/// Byte1('C') | Int8 flags, always 0 | Int64 position | Int64 end | Int64 time
/// ```
#[derive(Debug, Drop, PartialEq)]
pub struct Commit {
    /// The position at which the commit record starts.
    pub position: u64,
    /// The position at which the commit record ends.
    pub end: u64,
    /// The commit time, in microseconds since 2000-01-01.
    pub time: i64,
}

/// The fields of Commit, which stand after its kind byte; or the leftmost fault: `Short` (O1) where they aren't there whole,
/// `BadMark` (O3) at flags that aren't 0.
#[tactic(auto, unfolding(crate::specs::Commit::commit_at))]
pub fn commit_of(cursor: &mut Cursor<'_>) -> Result<Commit, PgoutputError>
    ensures exact { Gives result cursor.new (commit_at cursor.old) }
    ensures steady { result ≢ Err PgoutputError.Memory }
{
    expected_of(cursor, COMMIT_FLAGS)?;
    Ok(Commit {
        position: number64_of(cursor)?,
        end: number64_of(cursor)?,
        time: signed64_of(cursor)?,
    })
}

/// Adds the fields of Commit, after its kind byte. `AllocError` where memory is refused; some of them may have been added then.
#[tactic(auto, using(pqformat::proofs::Putting::in_place))]
pub fn put_commit(out: &mut BytesMut, message: &Commit) -> Result<(), AllocError>
    ensures { Puts result out.old.items out.new.items (commit message.now) }
{
    put_byte(out, COMMIT_FLAGS)?;
    put_int64(out, message.position)?;
    put_int64(out, message.end)?;
    put_signed64(out, message.time)
}
