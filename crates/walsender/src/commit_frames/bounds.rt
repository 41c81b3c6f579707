//! The frames round the changes of a transaction: Begin and Commit (PostgreSQL 15, 55.9).
#![tactic(auto, using(row_messages::proofs::Written::sizes))]

ghost use Rattle.std.specs.Prelude.{◌≡◌, ◌<◌, ◌≤◌, ◌^◌, length, take};
ghost use Rattle.pgoutput.specs.Logical.{spell_logical};
ghost use Rattle.pqformat.specs.Writing.{FitsRoom, Writes};
ghost use Rattle.walsender.specs.Spelled.{begin_with, commit_with};
ghost use Rattle.walsender.specs.Waiting.{begin_bytes, commit_bytes};

use crate::commit_frames::header::Header;
use crate::commit_frames::making::{HEAD_LENGTH, put_head};
use crate::held::committed_transaction::CommittedTransaction;
use pgoutput::{BEGIN, COMMIT, COMMIT_FLAGS};
use pqformat::{write_byte, write_int32, write_int64};

/// The length of a Begin's frame.
pub(crate) const BEGIN_FRAME_LENGTH: usize = HEAD_LENGTH + 21;

/// The length of a Commit's frame.
pub(crate) const COMMIT_FRAME_LENGTH: usize = HEAD_LENGTH + 26;

/// Makes the frame of a Begin at the front of `out`, and answers how long it is.
pub(crate) fn put_begin(header: &Header, clock: i64, out: &mut [u8]) -> usize
    requires room { BEGIN_FRAME_LENGTH ≤ length out.old }
    requires short { length out.old < 2 ^ 31 }
    ensures made { take result out.new ≡ begin_bytes clock header.now }
    ensures length { result ≡ BEGIN_FRAME_LENGTH }
    ensures same { length out.new ≡ length out.old }
{
    let (head, room) = out.split_at_mut(HEAD_LENGTH);
    let length = write_begin(room, header);
    put_head(head, header.start, clock, length);
    HEAD_LENGTH + length
}

/// Makes the frame of a Commit at the front of `out`, and answers how long it is.
fn put_commit(header: &Header, clock: i64, out: &mut [u8]) -> usize
    requires room { COMMIT_FRAME_LENGTH ≤ length out.old }
    requires short { length out.old < 2 ^ 31 }
    ensures made { take result out.new ≡ commit_bytes clock header.now }
    ensures length { result ≡ COMMIT_FRAME_LENGTH }
    ensures same { length out.new ≡ length out.old }
{
    let (head, room) = out.split_at_mut(HEAD_LENGTH);
    let length = write_commit(room, header);
    put_head(head, header.end, clock, length);
    HEAD_LENGTH + length
}

/// Makes the frame of the Commit of a transaction that waits at the front of `out`, and answers how long it is.
pub(crate) fn put_commit_of(waiting: &CommittedTransaction, out: &mut [u8]) -> usize
    requires room { COMMIT_FRAME_LENGTH ≤ length out.old }
    requires short { length out.old < 2 ^ 31 }
    ensures made { take result out.new ≡ commit_bytes waiting.now.clock waiting.now.header }
    ensures length { result ≡ COMMIT_FRAME_LENGTH }
    ensures same { length out.new ≡ length out.old }
{
    put_commit(&waiting.header, waiting.clock, out)
}

fn write_begin(room: &mut [u8], header: &Header) -> usize
    requires { FitsRoom 0 room.old (spell_logical (begin_with header.now)) }
    ensures { Writes 0 result room.old room.new (spell_logical (begin_with header.now)) }
{
    let kind = write_byte(room, 0, BEGIN);
    let placed = write_int64(room, kind, header.start);
    let timed = write_int64(room, placed, header.time_bits());
    write_int32(room, timed, header.xid)
}

fn write_commit(room: &mut [u8], header: &Header) -> usize
    requires { FitsRoom 0 room.old (spell_logical (commit_with header.now)) }
    ensures { Writes 0 result room.old room.new (spell_logical (commit_with header.now)) }
{
    let kind = write_byte(room, 0, COMMIT);
    let flags = write_byte(room, kind, COMMIT_FLAGS);
    let placed = write_int64(room, flags, header.start);
    let ended = write_int64(room, placed, header.end);
    write_int64(room, ended, header.time_bits())
}
