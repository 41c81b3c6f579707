//! Standby status update, how far a client is: its type, its reader and its writer.

ghost use Rattle.std.specs.Prelude.{◌≡◌, ◌++◌, IfOk, Ok, OnOk, OnErr};
ghost use Rattle.pqformat.specs.Putting.{Puts};
ghost use Rattle.copyboth.specs.Reading.{FaultIs, client_at, status_at};
ghost use Rattle.copyboth.specs.Status.{SpellsStatus, client_fault, status};

use crate::fault::CopyFault;
use crate::fields::{ask_of, end_of, int64_of, signed64_of};
use crate::keepalive::byte_of;
use bytes::BytesMut;
use pqformat::{Cursor, put_byte, put_int64, whole_or_nothing};
use std::alloc::AllocError;

/// The kind byte of a standby status update.
pub const STATUS: u8 = b'r';

/// A standby status update (PostgreSQL 15, 55.4). Its positions are those of the last byte plus one.
#[derive(Clone, Copy, Debug, PartialEq, Eq)]
pub struct Status {
    /// What the client has written.
    pub written: u64,
    /// What it has flushed.
    pub flushed: u64,
    /// What it has applied.
    pub applied: u64,
    /// The client's clock, in microseconds since 2000-01-01.
    pub clock: i64,
    /// Whether the server should answer at once.
    pub ask: bool,
}

/// Adds the body of a standby status update (PostgreSQL 15, 55.4) at the end of `out`. `AllocError` where memory is refused;
/// nothing is added then.
///
/// ```text
/// Byte1('r') | Int64 written | Int64 flushed | Int64 applied | Int64 clock | Byte1 1: answer at once, 0: no need
/// ```
pub fn write_status(message: &Status, out: &mut BytesMut) -> Result<(), AllocError>
    ensures ok { OnOk result (out.new.items ≡ out.old.items ++ status message.now) }
    ensures err { OnErr result (out.new.items ≡ out.old.items) }
{
    let length = out.len();
    whole_or_nothing(put_status(message, out), length, out)
}

fn put_status(message: &Status, out: &mut BytesMut) -> Result<(), AllocError>
    ensures { Puts result out.old.items out.new.items (status message.now) }
{
    put_byte(out, STATUS)?;
    put_int64(out, message.written)?;
    put_int64(out, message.flushed)?;
    put_int64(out, message.applied)?;
    put_int64(out, message.clock.cast_unsigned())?;
    put_byte(out, byte_of(message.ask))
}

/// The status that the bytes of a client spell, all of them.
///
/// `Short` (B1) where the bytes end inside a field, `UnknownKind` (B2) where the first byte is another, `Trailing` (B3) at
/// bytes after a status.
pub fn read_client(bytes: &[u8]) -> Result<Status, CopyFault>
    // What is read is spelled so,
    ensures found { IfOk result (λ s. SpellsStatus bytes.now s) }
    // what is spelled is read,
    ensures only { (s : Status) → SpellsStatus bytes.now s → result ≡ Ok s }
    // and a fault is answered where it stands.
    ensures fault { FaultIs result (client_fault bytes.now) }
{
    client_of(bytes)
}

fn client_of(bytes: &[u8]) -> Result<Status, CopyFault>
    ensures { result ≡ client_at bytes.now }
{
    let mut cursor = Cursor::new(bytes);
    match cursor.u8().ok_or(CopyFault::Short)? {
        STATUS => status_of(&mut cursor),
        _ => Err(CopyFault::UnknownKind),
    }
}

/// What stands after the kind byte, up to the end.
fn status_of(cursor: &mut Cursor<'_>) -> Result<Status, CopyFault>
    ensures { result ≡ status_at cursor.old }
{
    let written = int64_of(cursor)?;
    let flushed = int64_of(cursor)?;
    let applied = int64_of(cursor)?;
    let clock = signed64_of(cursor)?;
    let ask = ask_of(cursor)?;
    end_of(cursor)?;
    Ok(Status {
        written,
        flushed,
        applied,
        clock,
        ask,
    })
}
