//! AuthenticationOk, by which the server takes a client without asking for a password: its type and its reader.

ghost use Rattle.std.specs.Prelude.{◌≡◌};
ghost use Rattle.frames.specs.Body.{whole, always};
ghost use Rattle.frames.specs.Plain.{authentication_at};

use crate::fault::FrameFault;
use crate::parts::body::end_of;
use crate::parts::field::int32;
use pqformat::Cursor;

/// The type byte of AuthenticationOk (PostgreSQL 15, 55.7).
///
/// ```text
/// Byte1('R') | Int32 8, itself counted | Int32 0
/// ```
pub const AUTHENTICATION: u8 = b'R';

pub(crate) fn authentication_of(body: &[u8]) -> Result<u32, FrameFault>
    ensures { result ≡ whole always (authentication_at body.now) }
{
    let mut cursor = Cursor::new(body);
    let asked = int32(&mut cursor)?;
    if asked != 0 {
        return Err(FrameFault::BadBody);
    }
    end_of(&cursor)?;
    Ok(asked)
}
