//! HMAC over SHA-256 (RFC 2104).

ghost use Rattle.std.specs.Prelude.{◌≡◌, ◌≤◌, length, IfOk};
ghost use Rattle.sha2.specs.Hashers.{Holds256};
ghost use Rattle.scram.specs.Hmac.{block_key, filled_up, hmac, padded};

use sha2::{Digest, Sha256};
use std::alloc::{AllocError, Global};

/// The bytes of a digest, and so of each key and each proof.
pub const DIGEST_BYTES: usize = 32;

/// The bytes that SHA-256 takes in at once.
const BLOCK_BYTES: usize = 64;

/// The code of the text under the key. `AllocError` where memory is refused.
#[tactic(auto, unfolding(crate::specs::Hmac::hmac))]
pub fn hmac_sha256(alloc: Global, key: &[u8], text: &[u8]) -> Result<[u8; DIGEST_BYTES], AllocError>
    ensures { IfOk result (λ code. code ≡ hmac key.now text.now) }
{
    let block = block_key(alloc, key)?;
    let mut inner = begun(alloc, 0x36, block.as_slice())?;
    inner.update(text);
    let inner = inner.finalize();
    let mut outer = begun(alloc, 0x5c, block.as_slice())?;
    outer.update(inner.as_slice());
    Ok(outer.finalize())
}

/// The key, or its digest where it is longer than a block, filled up with zeros.
fn block_key(alloc: Global, key: &[u8]) -> Result<Vec<u8>, AllocError>
    ensures { IfOk result (λ block. block.items ≡ block_key key.now) }
{
    if key.len() <= BLOCK_BYTES {
        return filled_up(alloc, key);
    }
    filled_up(alloc, Sha256::digest(key).as_slice())
}

fn filled_up(alloc: Global, key: &[u8]) -> Result<Vec<u8>, AllocError>
    requires { length key.now ≤ 64 }
    ensures { IfOk result (λ block. block.items ≡ filled_up key.now) }
{
    let mut block = Vec::from_slice(alloc, key)?;
    block.resize(BLOCK_BYTES, 0)?;
    Ok(block)
}

/// A hasher that has taken in the block under a pad.
fn begun(alloc: Global, pad: u8, block: &[u8]) -> Result<Sha256, AllocError>
    ensures { IfOk result (λ hasher. Holds256 hasher (padded pad block.now)) }
{
    let bytes: Vec<u8> = block.iter().map(|byte| pad ^ *byte).collect(alloc)?;
    let mut hasher = Sha256::new();
    hasher.update(bytes.as_slice());
    Ok(hasher)
}
