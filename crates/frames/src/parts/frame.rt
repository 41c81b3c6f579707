//! What all regular frames have in common (PostgreSQL 15, 55.1.1): a type byte, a length that counts itself, and a body.

ghost use Rattle.std.specs.Prelude.{◌≡◌, ◌≢◌, ◌+◌, ◌^◌, ◌<◌, ◌∷◌, ◌++◌, option_map, Result, Ok, Err};
ghost use Rattle.pqformat.specs.Fields.{int32};
ghost use Rattle.frames.specs.Frame.{Gives, body_at};
ghost use Rattle.pqformat.specs.Putting.{Puts};
ghost use Rattle.frames.specs.Raw.{lent};

use crate::fault::FrameFault;
use bytes::BytesMut;
use pqformat::{Cursor, put_byte, put_int32};
use std::alloc::AllocError;

/// The greatest length field of a frame that has no limit of its own.
pub const FRAME_LIMIT: u32 = 1_048_576;

/// The body after a type byte whose frames have this limit, and how many bytes the frame takes; None while it isn't
/// there whole. A type byte with no limit is no frame's.
pub(crate) fn body_of<'a>(
    cursor: &mut Cursor<'a>,
    limit: Option<u32>,
) -> Result<Option<(&'a [u8], usize)>, FrameFault>
    ensures exact { Gives (lent result) (body_at limit cursor.old) }
    ensures steady { result ≢ Err FrameFault.Memory }
{
    let limit = limit.ok_or(FrameFault::UnknownType)?;
    let Some(length) = cursor.u32() else {
        return Ok(None);
    };
    if length < 4 {
        return Err(FrameFault::BadLength);
    }
    if limit < length {
        return Err(FrameFault::TooLong);
    }
    let Some(body) = cursor.take(length as usize - 4) else {
        return Ok(None);
    };
    Ok(Some((body, 1 + length as usize)))
}

/// The type byte and the length of a frame with a body of this many bytes.
#[tactic(auto, using(pqformat::proofs::Putting::in_place))]
pub(crate) fn put_head(out: &mut BytesMut, kind: u8, body_len: usize) -> Result<(), AllocError>
    requires { 4 + body_len < 2 ^ 32 }
    ensures { Puts result out.old.items out.new.items (kind ∷ int32 (4 + body_len)) }
{
    put_byte(out, kind)?;
    put_int32(out, 4 + body_len as u32)
}
