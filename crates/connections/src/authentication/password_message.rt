//! SASLInitialResponse and SASLResponse (PostgreSQL 15, 55.7), which have one type byte: which stands at the front.

ghost use Rattle.std.specs.Prelude.{◌≡◌, ◌<◌, ◌≤◌, IfOk, IfSome, length, take};
ghost use Rattle.frames.specs.Frame.{frame};
ghost use Rattle.frames.specs.Raw.{lent};
ghost use Rattle.connections.specs.Messages.{framed_password};

use frames::{FrameFault, body_alone};

/// The type byte of a client's message in an exchange that proves a password.
///
/// ```text
/// Byte1('p') | Int32 length, itself counted | Byten message
/// ```
pub const PASSWORD: u8 = b'p';

/// The greatest length field of one: PostgreSQL reads no longer ones before it knows who sends them.
pub const MOST_PASSWORD_BYTES: u32 = 1_028;

/// The body of the one at the front, and how many bytes the whole takes; None while it isn't there whole.
pub(crate) fn read_password(bytes: &[u8]) -> Result<Option<(&[u8], usize)>, FrameFault>
    ensures found { IfOk result
        (λ o. IfSome o
        (λ x. (0 < x.1) × (x.1 ≤ length bytes.now)
        × (take x.1 bytes.now ≡ frame PASSWORD x.0.now))) }
    ensures exact { lent result ≡ framed_password bytes.now }
{
    body_alone(bytes, PASSWORD, MOST_PASSWORD_BYTES)
}
