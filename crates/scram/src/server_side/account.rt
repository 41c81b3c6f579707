//! Of whom a proof is asked.

ghost use Rattle.std.specs.Prelude.{◌≡◌, take, IfOk, true, false};
ghost use Rattle.scram.specs.Exchanges.{unknown_salt};

use crate::hashes::hmac::{DIGEST_BYTES, hmac_sha256};
use crate::server_side::verifier::{SALT_BYTES, Verifier};
use std::alloc::{AllocError, Global};

/// A user that has a verifier, or one of that name that isn't there, who is asked for a proof as well and never gives a right one.
#[derive(Clone, Copy, Drop)]
pub struct Account {
    pub(crate) verifier: Verifier,
    pub(crate) is_known: bool,
}

impl Account {
    /// That of this verifier.
    pub fn known(verifier: Verifier) -> Self
        ensures { result ≡ record { verifier = verifier; is_known = true } }
    {
        Account {
            verifier,
            is_known: true,
        }
    }

    /// That of a name nobody has. Its salt is the same each time, so that who asks twice learns nothing; it comes of 32 bytes
    /// or so that nobody else knows. `AllocError` where memory is refused.
    pub fn unknown(alloc: Global, secret: &[u8], name: &[u8]) -> Result<Self, AllocError>
        ensures nobody { IfOk result (λ account. account.is_known ≡ false) }
        ensures salt { IfOk result
            (λ account. account.verifier.salt ≡ unknown_salt secret.now name.now) }
    {
        let code = hmac_sha256(alloc, secret, name)?;
        let mut salt = [0; SALT_BYTES];
        salt.copy_from_slice(&code[..SALT_BYTES]);
        Ok(Account {
            verifier: Verifier {
                salt,
                stored_key: [0; DIGEST_BYTES],
                server_key: [0; DIGEST_BYTES],
            },
            is_known: false,
        })
    }
}
