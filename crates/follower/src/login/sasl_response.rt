//! What a client answers to one who asks for a proof: SASLInitialResponse and SASLResponse.

ghost use Rattle.pqformat.specs.Putting.{Puts};
ghost use Rattle.follower.specs.Requests.{initial_body, sasl_response};

use bytes::BytesMut;
use frames::{put_byte, put_bytes, put_int32};
use std::alloc::AllocError;

/// The type byte of both (PostgreSQL 15, 55.7).
///
/// ```text
/// Byte1('p') | Int32 length, itself counted | String mechanism | Int32 length of the message | Byten message
/// Byte1('p') | Int32 length, itself counted | Byten message
/// ```
pub(crate) const PASSWORD: u8 = b'p';

/// The most bytes of a body that are sent; a server reads no longer ones of a client that it doesn't know.
const MOST_BODY_BYTES: usize = 65_535;

/// A body as a frame. `AllocError` where memory is refused; so is a longer body than is sent, of which no caller makes one.
#[tactic(auto, using(pqformat::proofs::Putting::in_place))]
pub(crate) fn put_response(out: &mut BytesMut, body: &[u8]) -> Result<(), AllocError>
    ensures { Puts result out.old.items out.new.items (sasl_response body.now) }
{
    if MOST_BODY_BYTES < body.len() {
        return Err(AllocError);
    }
    put_byte(out, PASSWORD)?;
    put_int32(out, 4 + body.len() as u32)?;
    put_bytes(out, body)
}

/// The body of a SASLInitialResponse that chooses this mechanism, whose name has no zero byte, with this first message.
/// `AllocError` as of `put_response`.
#[tactic(auto, using(pqformat::proofs::Putting::in_place))]
pub(crate) fn put_initial(
    out: &mut BytesMut,
    mechanism: &[u8],
    text: &[u8],
) -> Result<(), AllocError>
    ensures { Puts result out.old.items out.new.items (initial_body mechanism.now text.now) }
{
    if MOST_BODY_BYTES < text.len() {
        return Err(AllocError);
    }
    put_bytes(out, mechanism)?;
    put_byte(out, 0)?;
    put_int32(out, text.len() as u32)?;
    put_bytes(out, text)
}
