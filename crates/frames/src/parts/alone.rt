//! The front of a conversation in which one type byte alone is awaited.

ghost use Rattle.std.specs.Prelude.{◌≡◌};
ghost use Rattle.frames.specs.Frame.{body_alone, limit_alone};
ghost use Rattle.frames.specs.Raw.{lent};

use crate::fault::FrameFault;
use pqformat::Cursor;

/// The body of the frame of this type byte at the front, and how many bytes the whole takes; None while it isn't there whole.
///
/// Another type byte is `UnknownType` (F3) at once; a length under 4 is `BadLength` (F1), and one over the limit `TooLong` (F6), as soon
/// as it is there.
pub fn body_alone(bytes: &[u8], kind: u8, most: u32) -> Result<Option<(&[u8], usize)>, FrameFault>
    ensures { lent result ≡ body_alone kind most bytes.now }
{
    let mut cursor = Cursor::new(bytes);
    let Some(byte) = cursor.u8() else {
        return Ok(None);
    };
    let limit = limit_alone(byte, kind, most).ok_or(FrameFault::UnknownType)?;
    let Some(length) = cursor.u32() else {
        return Ok(None);
    };
    if length < 4 {
        return Err(FrameFault::BadLength);
    }
    if limit < length {
        return Err(FrameFault::TooLong);
    }
    match cursor.take(length as usize - 4) {
        Some(body) => Ok(Some((body, 1 + length as usize))),
        None => Ok(None),
    }
}

fn limit_alone(byte: u8, kind: u8, most: u32) -> Option<u32>
    ensures { result ≡ limit_alone kind most byte }
{
    if byte == kind { Some(most) } else { None }
}
