//! The nonce by which a server asks for a proof.

ghost use Rattle.std.specs.Prelude.{◌≡◌, IfOk};
ghost use Rattle.scram.specs.Coding.{base64};

use base64::engine::general_purpose::STANDARD;
use pqformat::Items;
use std::alloc::{AllocError, Global};

/// How many random bytes a nonce is made of, as PostgreSQL makes its own.
pub const NONCE_BYTES: usize = 18;

/// The nonce of these bytes, which are to be drawn anew for each connection: in base64, so that it is printable and has no
/// comma. `AllocError` where memory for it is refused.
#[tactic(auto, unfolding(scram::specs::Coding::base64))]
pub fn nonce_of(alloc: Global, drawn: &[u8; NONCE_BYTES]) -> Result<Items<u8>, AllocError>
    ensures { IfOk result (λ nonce. nonce ≡ base64 drawn.now) }
{
    let text = STANDARD.encode(alloc, drawn.as_slice())?;
    Ok(Items::new(text.into_bytes()))
}
