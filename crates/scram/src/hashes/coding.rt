//! Bytes as text in base64 (RFC 4648, 4).

ghost use Rattle.std.specs.Prelude.{◌≡◌, ◌==◌, length, Some, None, IfOk, string_bytes, if◌then◌else◌};
ghost use Rattle.base64.specs.Engines.{standard};
ghost use Rattle.base64.specs.GeneralPurpose.{decoded_of};
ghost use Rattle.scram.specs.Coding.{base64, spelled};

use base64::DecodeAllocError;
use base64::engine::general_purpose::STANDARD;
use pqformat::Items;
use std::alloc::{AllocError, Global};

/// The text of these bytes. `AllocError` where memory for it is refused.
#[tactic(auto, unfolding(crate::specs::Coding::base64))]
pub fn base64_of(alloc: Global, bytes: &[u8]) -> Result<String, AllocError>
    ensures { IfOk result (λ text. string_bytes text ≡ base64 bytes.now) }
{
    STANDARD.encode(alloc, bytes)
}

/// The bytes that the text spells, if they are as many as `N`.
#[tactic(auto, unfolding(crate::specs::Coding::spelled, base64::specs::GeneralPurpose::decoded_of))]
pub(crate) fn spelled<const N: usize>(
    alloc: Global,
    text: &[u8],
) -> Result<Option<[u8; N]>, AllocError>
    ensures { IfOk result (λ found. found ≡ spelled N text.now) }
{
    match STANDARD.decode(alloc, text) {
        Ok(bytes) => Ok(sized(bytes.as_slice())),
        Err(DecodeAllocError::OutOfMemory) => Err(AllocError),
        Err(DecodeAllocError::DecodeError(_)) => Ok(None),
    }
}

/// The bytes that the text spells, if it spells any.
#[tactic(auto, unfolding(base64::specs::GeneralPurpose::decoded_of))]
pub(crate) fn decoded(alloc: Global, text: &[u8]) -> Result<Option<Items<u8>>, AllocError>
    ensures { IfOk result (λ found. found ≡ decoded_of standard text.now) }
{
    match STANDARD.decode(alloc, text) {
        Ok(bytes) => Ok(Some(Items::new(bytes))),
        Err(DecodeAllocError::OutOfMemory) => Err(AllocError),
        Err(DecodeAllocError::DecodeError(_)) => Ok(None),
    }
}

/// These bytes, if they are as many.
fn sized<const N: usize>(bytes: &[u8]) -> Option<[u8; N]>
    ensures { result ≡ (if length bytes.now == N then Some bytes.now else None) }
{
    if bytes.len() != N {
        return None;
    }
    let mut sized = [0; N];
    sized.copy_from_slice(bytes);
    Some(sized)
}
