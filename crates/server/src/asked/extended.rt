//! The frames of extended queries and of function calls (PostgreSQL 15, 55.2.3 and 55.2.5), which a session refuses: which one
//! stands at the front, and how long it is. What they ask isn't read.

ghost use Rattle.std.specs.Prelude.{◌≡◌, ◌<◌, ◌≤◌, IfOk, IfSome, length, take};
ghost use Rattle.server.specs.Extended.{SpellsExtended, extended_of, framed_extended, is_extended};

use frames::{Cursor, FRAME_LIMIT, FrameFault};

pub(crate) const PARSE: u8 = b'P';

pub(crate) const BIND: u8 = b'B';

pub(crate) const DESCRIBE: u8 = b'D';

pub(crate) const EXECUTE: u8 = b'E';

pub(crate) const CLOSE: u8 = b'C';

pub(crate) const FLUSH: u8 = b'H';

pub(crate) const SYNC: u8 = b'S';

pub(crate) const FUNCTION_CALL: u8 = b'F';

/// What a frame of these is to a session that answers simple queries alone.
#[derive(Clone, Copy, Debug, PartialEq, Eq)]
pub(crate) enum Extended {
    /// A Parse, Bind, Describe, Execute or Close: a step of an extended query.
    Step,
    /// There is never anything to flush.
    Flush,
    /// The end of a query, whatever came of its steps.
    Sync,
    /// A FunctionCall.
    Call,
}

fn extended_of(kind: u8) -> Option<Extended>
    ensures { result ≡ extended_of kind }
{
    match kind {
        PARSE | BIND | DESCRIBE | EXECUTE | CLOSE => Some(Extended::Step),
        FLUSH => Some(Extended::Flush),
        SYNC => Some(Extended::Sync),
        FUNCTION_CALL => Some(Extended::Call),
        _ => None,
    }
}

/// Whether the bytes begin with the type byte of one.
pub(crate) fn is_extended(bytes: &[u8]) -> bool
    ensures { result ≡ is_extended bytes.now }
{
    match bytes.first() {
        Some(kind) => extended_of(*kind).is_some(),
        None => false,
    }
}

/// The one at the front, and how many bytes it takes; None while it isn't there whole.
pub(crate) fn read_extended(bytes: &[u8]) -> Result<Option<(Extended, usize)>, FrameFault>
    ensures found { IfOk result
        (λ o. IfSome o
        (λ x. (0 < x.1) × (x.1 ≤ length bytes.now) × SpellsExtended (take x.1 bytes.now) x.0)) }
    ensures exact { result ≡ framed_extended bytes.now }
{
    framed(bytes)
}

fn framed(bytes: &[u8]) -> Result<Option<(Extended, usize)>, FrameFault>
    ensures { result ≡ framed_extended bytes.now }
{
    let mut cursor = Cursor::new(bytes);
    let Some(kind) = cursor.u8() else {
        return Ok(None);
    };
    let extended = extended_of(kind).ok_or(FrameFault::UnknownType)?;
    let Some(length) = cursor.u32() else {
        return Ok(None);
    };
    if length < 4 {
        return Err(FrameFault::BadLength);
    }
    if FRAME_LIMIT < length {
        return Err(FrameFault::TooLong);
    }
    match cursor.take(length as usize - 4) {
        Some(_) => Ok(Some((extended, 1 + length as usize))),
        None => Ok(None),
    }
}
