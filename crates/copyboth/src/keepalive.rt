//! Primary keepalive, the server's position between pieces of the stream: its type, its reader and its writer.

ghost use Rattle.std.specs.Prelude.{◌≡◌, ◌++◌, OnOk, OnErr};
ghost use Rattle.pqformat.specs.Putting.{Puts};
ghost use Rattle.copyboth.specs.Keepalive.{keepalive, ask_byte};
ghost use Rattle.copyboth.specs.Reading.{keepalive_at};

use crate::fault::CopyFault;
use crate::fields::{ask_of, end_of, int64_of, signed64_of};
use bytes::BytesMut;
use pqformat::{Cursor, put_byte, put_int64, whole_or_nothing};
use std::alloc::AllocError;

/// The kind byte of a primary keepalive.
pub const KEEPALIVE: u8 = b'k';

/// The last byte of a message that asks for an answer at once, and of one that doesn't.
pub const ASKS: u8 = 1;

pub const SILENT: u8 = 0;

/// A primary keepalive (PostgreSQL 15, 55.4).
#[derive(Clone, Copy, Debug, PartialEq, Eq)]
pub struct Keepalive {
    /// The end of the log at the server.
    pub end: u64,
    /// The server's clock, in microseconds since 2000-01-01.
    pub clock: i64,
    /// Whether the client should answer at once.
    pub ask: bool,
}

/// Adds the body of a primary keepalive (PostgreSQL 15, 55.4) at the end of `out`. `AllocError` where memory is refused;
/// nothing is added then.
///
/// ```text
/// Byte1('k') | Int64 end of the log at the server | Int64 clock | Byte1 1: answer at once, 0: no need
/// ```
///
/// `end` is a position of the log, `clock` is in microseconds since 2000-01-01; `ask` asks the client for a status at
/// once.
pub fn write_keepalive(
    end: u64,
    clock: i64,
    ask: bool,
    out: &mut BytesMut,
) -> Result<(), AllocError>
    ensures ok { OnOk result (out.new.items ≡ out.old.items ++ keepalive end clock ask) }
    ensures err { OnErr result (out.new.items ≡ out.old.items) }
{
    let length = out.len();
    whole_or_nothing(put_keepalive(end, clock, ask, out), length, out)
}

fn put_keepalive(end: u64, clock: i64, ask: bool, out: &mut BytesMut) -> Result<(), AllocError>
    ensures { Puts result out.old.items out.new.items (keepalive end clock ask) }
{
    put_byte(out, KEEPALIVE)?;
    put_int64(out, end)?;
    put_int64(out, clock.cast_unsigned())?;
    put_byte(out, byte_of(ask))
}

pub(crate) fn byte_of(ask: bool) -> u8
    ensures { result ≡ ask_byte ask }
{
    if ask { ASKS } else { SILENT }
}

/// What stands after the kind byte, up to the end.
pub(crate) fn keepalive_of(cursor: &mut Cursor<'_>) -> Result<Keepalive, CopyFault>
    ensures { result ≡ keepalive_at cursor.old }
{
    let end = int64_of(cursor)?;
    let clock = signed64_of(cursor)?;
    let ask = ask_of(cursor)?;
    end_of(cursor)?;
    Ok(Keepalive { end, clock, ask })
}
