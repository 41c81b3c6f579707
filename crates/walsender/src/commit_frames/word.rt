//! Words of the stream as frames: a CopyData of an XLogData with the message of a note, or of a keepalive (PostgreSQL 15, 55.4).
#![tactic(auto, using(pqformat::proofs::Putting::in_place))]

ghost use Rattle.std.specs.Prelude.{◌≡◌, ◌+◌, ◌<◌, ◌≤◌, ◌^◌, ◌∷◌, ◌++◌, OnOk, OnErr, length};
ghost use Rattle.pqformat.specs.Fields.{int32};
ghost use Rattle.pqformat.specs.Putting.{Puts};
ghost use Rattle.frames.specs.declared.parts.frame.TheConstants.{FRAME_LIMIT};
ghost use Rattle.frames.specs.Frame.{frame};
ghost use Rattle.copyboth.specs.XLogData.{xlogdata};
ghost use Rattle.pgoutput.specs.Words.{word_bytes};
ghost use Rattle.pgoutput.specs.Items.{keepalive_word};

use bytes::BytesMut;
use copyboth::{write_keepalive, write_xlogdata};
use frames::COPY_DATA;
use pqformat::{put_byte, put_int32};
use std::alloc::AllocError;

/// The bytes of an XLogData's body before the message: its kind, two positions and a clock.
const XLOGDATA_HEAD: u32 = 25;

/// The bytes of a keepalive's body.
const KEEPALIVE_SIZE: u32 = 18;

/// Adds the frame of a message at a position, of which this is the spelling.
pub(crate) fn put_spelled(
    out: &mut BytesMut,
    position: u64,
    clock: i64,
    message: &[u8],
) -> Result<(), AllocError>
    requires { 29 + length message.now ≤ FRAME_LIMIT }
    ensures { Puts result out.old.items out.new.items
        (frame COPY_DATA (xlogdata position position clock message.now)) }
{
    put_head(out, XLOGDATA_HEAD + message.len() as u32)?;
    write_xlogdata(position, position, clock, message, out)?;
    Ok(())
}

/// Adds the frame of a keepalive.
pub(crate) fn put_keepalive(
    out: &mut BytesMut,
    position: u64,
    clock: i64,
    ask: bool,
) -> Result<(), AllocError>
    ensures { Puts result out.old.items out.new.items
        (word_bytes (keepalive_word position clock ask)) }
{
    put_head(out, KEEPALIVE_SIZE)?;
    write_keepalive(position, clock, ask, out)?;
    Ok(())
}

/// Adds the type byte and the length of a CopyData with a body of this many bytes.
fn put_head(out: &mut BytesMut, body_len: u32) -> Result<(), AllocError>
    requires { 4 + body_len < 2 ^ 32 }
    ensures { Puts result out.old.items out.new.items (COPY_DATA ∷ int32 (4 + body_len)) }
{
    put_byte(out, COPY_DATA)?;
    put_int32(out, 4 + body_len)?;
    Ok(())
}
