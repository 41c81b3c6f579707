//! XLogData, a piece of the stream of changes: its type, its reader and its writer.

ghost use Rattle.std.specs.Prelude.{◌≡◌, ◌++◌, OnOk, OnErr};
ghost use Rattle.pqformat.specs.Putting.{Puts};
ghost use Rattle.copyboth.specs.XLogData.{xlogdata};
ghost use Rattle.copyboth.specs.Reading.{xlogdata_at};

use crate::fault::CopyFault;
use crate::fields::{int64_of, signed64_of};
use bytes::BytesMut;
use pqformat::{Cursor, put_byte, put_bytes, put_int64, whole_or_nothing};
use std::alloc::AllocError;
use std::marker::Model;

/// The kind byte of XLogData.
pub const XLOGDATA: u8 = b'w';

/// An XLogData (PostgreSQL 15, 55.4). Contracts see what it holds as a list of bytes.
#[derive(Debug, Drop)]
pub struct XLogData<'a> {
    /// The position at which the data starts.
    pub start: u64,
    /// The end of the log at the server.
    pub end: u64,
    /// The server's clock, in microseconds since 2000-01-01.
    pub clock: i64,
    /// The data: one logical message.
    pub payload: &'a [u8],
}

impl<'a> Model for XLogData<'a> {
    ghost use Rattle.copyboth.specs.XLogData.{XLogDataBody};

    ghost Value = { XLogDataBody };

    ghost view = { λ m. record {
      start = m.start;
      end = m.end;
      clock = m.clock;
      payload = m.payload.now;
    } };
}

/// Adds the body of an XLogData (PostgreSQL 15, 55.4) at the end of `out`. `AllocError` where memory is refused; nothing is
/// added then.
///
/// ```text
/// Byte1('w') | Int64 start of the data | Int64 end of the log at the server | Int64 clock | Byten data
/// ```
///
/// `start` and `end` are positions of the log, `clock` is in microseconds since 2000-01-01.
pub fn write_xlogdata(
    start: u64,
    end: u64,
    clock: i64,
    payload: &[u8],
    out: &mut BytesMut,
) -> Result<(), AllocError>
    ensures ok { OnOk result
        (out.new.items ≡ out.old.items ++ xlogdata start end clock payload.now) }
    ensures err { OnErr result (out.new.items ≡ out.old.items) }
{
    let piece = XLogData {
        start,
        end,
        clock,
        payload,
    };
    let length = out.len();
    whole_or_nothing(put_xlogdata(&piece, out), length, out)
}

fn put_xlogdata(piece: &XLogData<'_>, out: &mut BytesMut) -> Result<(), AllocError>
    ensures { Puts result out.old.items out.new.items
        (xlogdata piece.now.start piece.now.end piece.now.clock piece.now.payload) }
{
    put_byte(out, XLOGDATA)?;
    put_int64(out, piece.start)?;
    put_int64(out, piece.end)?;
    put_int64(out, piece.clock.cast_unsigned())?;
    put_bytes(out, piece.payload)
}

/// What stands after the kind byte.
pub(crate) fn xlogdata_of<'a>(cursor: &mut Cursor<'a>) -> Result<XLogData<'a>, CopyFault>
    ensures { result ≡ xlogdata_at cursor.old }
{
    Ok(XLogData {
        start: int64_of(cursor)?,
        end: int64_of(cursor)?,
        clock: signed64_of(cursor)?,
        payload: cursor.rest(),
    })
}
