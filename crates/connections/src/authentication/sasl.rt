//! What the server says in an exchange that proves a password: AuthenticationSASL, AuthenticationSASLContinue and
//! AuthenticationSASLFinal.

ghost use Rattle.pqformat.specs.Putting.{Puts};
ghost use Rattle.connections.specs.Messages.{sasl_continue, sasl_final, sasl_message, sasl_request};

use bytes::BytesMut;
use pqformat::{put_byte, put_bytes, put_int32};
use std::alloc::AllocError;

/// The type byte of each (PostgreSQL 15, 55.7).
///
/// ```text
/// Byte1('R') | Int32 length, itself counted | Int32 10 | for each mechanism: String name; Byte1(0)
/// Byte1('R') | Int32 length, itself counted | Int32 11 | Byten message
/// Byte1('R') | Int32 length, itself counted | Int32 12 | Byten message
/// ```
pub const AUTHENTICATION: u8 = b'R';

/// The number of AuthenticationSASL.
pub(crate) const SASL: u32 = 10;

/// That of AuthenticationSASLContinue.
pub(crate) const SASL_CONTINUE: u32 = 11;

/// That of AuthenticationSASLFinal.
pub(crate) const SASL_FINAL: u32 = 12;

/// The one mechanism that is offered, and the zero byte that ends their list.
const MECHANISMS: &[u8] = b"SCRAM-SHA-256\0\0";

/// The most bytes of a server's message that a frame is made of; none is as long.
const MOST_MESSAGE_BYTES: usize = 65_536;

/// The message in a frame of this number.
#[tactic(auto, using(pqformat::proofs::Putting::in_place))]
fn say_message(out: &mut BytesMut, number: u32, message: &[u8]) -> Result<(), AllocError>
    ensures { Puts result out.old.items out.new.items (sasl_message number message.now) }
{
    if MOST_MESSAGE_BYTES < message.len() {
        return Err(AllocError);
    }
    put_byte(out, AUTHENTICATION)?;
    put_int32(out, 8 + message.len() as u32)?;
    put_int32(out, number)?;
    put_bytes(out, message)
}

/// That a proof is asked for, by the one mechanism that is offered.
#[tactic(auto, using(pqformat::proofs::Putting::in_place), unfolding(crate::specs::Messages::sasl_request))]
pub(crate) fn say_request(out: &mut BytesMut) -> Result<(), AllocError>
    ensures { Puts result out.old.items out.new.items sasl_request }
{
    say_message(out, SASL, MECHANISMS)
}

/// The challenge.
#[tactic(auto, using(pqformat::proofs::Putting::in_place), unfolding(crate::specs::Messages::sasl_continue))]
pub(crate) fn say_continue(out: &mut BytesMut, message: &[u8]) -> Result<(), AllocError>
    ensures { Puts result out.old.items out.new.items (sasl_continue message.now) }
{
    say_message(out, SASL_CONTINUE, message)
}

/// By what the client knows the server.
#[tactic(auto, using(pqformat::proofs::Putting::in_place), unfolding(crate::specs::Messages::sasl_final))]
pub(crate) fn say_final(out: &mut BytesMut, message: &[u8]) -> Result<(), AllocError>
    ensures { Puts result out.old.items out.new.items (sasl_final message.now) }
{
    say_message(out, SASL_FINAL, message)
}
