//! The key that SCRAM makes of a password, by PBKDF2 with HMAC-SHA-256.

ghost use Rattle.std.specs.Prelude.{◌≡◌, ◌<◌, IfOk};
ghost use Rattle.scram.specs.Hi.{hi, u, xor};
ghost use Rattle.scram.specs.Hmac.{hmac};

use crate::hashes::hmac::hmac_sha256;
use std::alloc::{AllocError, Global};

/// SaltedPassword: the password as the client sends it in, its salt, and how many rounds are taken, one at least. `AllocError`
/// where memory is refused.
#[tactic(auto, using(crate::proofs::Rounds::next_code, crate::proofs::Rounds::next_sum, crate::proofs::Rounds::first_sum), unfolding(crate::specs::Hi::hi))]
pub fn salted_password(
    alloc: Global,
    password: &[u8],
    salt: &[u8],
    rounds: u32,
) -> Result<Vec<u8>, AllocError>
    requires { 0 < rounds }
    ensures { IfOk result (λ key. key.items ≡ hi password.now salt.now rounds) }
{
    let mut last = first_code(alloc, password, salt)?;
    let mut sum = Vec::from_slice(alloc, last.as_slice())?;
    for _round in 1..rounds {
        last = code(alloc, password, last.as_slice())?;
        sum = xor(alloc, sum.as_slice(), last.as_slice())?;
    }
    Ok(sum)
}

/// U1, the code of the salt and of the block's number.
#[tactic(auto, unfolding(crate::specs::Hi::u))]
fn first_code(alloc: Global, password: &[u8], salt: &[u8]) -> Result<Vec<u8>, AllocError>
    ensures { IfOk result (λ code. code.items ≡ u password.now salt.now 0) }
{
    let mut text = Vec::from_slice(alloc, salt)?;
    text.extend_from_slice(&[0, 0, 0, 1])?;
    code(alloc, password, text.as_slice())
}

fn code(alloc: Global, password: &[u8], text: &[u8]) -> Result<Vec<u8>, AllocError>
    ensures { IfOk result (λ code. code.items ≡ hmac password.now text.now) }
{
    let code = hmac_sha256(alloc, password, text)?;
    Vec::from_slice(alloc, code.as_slice())
}

/// The bytes of both, one by one.
pub(crate) fn xor(alloc: Global, left: &[u8], right: &[u8]) -> Result<Vec<u8>, AllocError>
    ensures { IfOk result (λ sum. sum.items ≡ xor left.now right.now) }
{
    left.iter()
        .zip(right.iter())
        .map(|(a, b)| *a ^ *b)
        .collect(alloc)
}
