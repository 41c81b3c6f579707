//! What a server keeps of a password.

ghost use Rattle.std.specs.Prelude.{◌≡◌, IfOk, string_bytes};
ghost use Rattle.scram.specs.Keys.{IsVerifierOf};
ghost use Rattle.scram.specs.Verifiers.{Reads, read_verifier, verifier_text};

use crate::fault::VerifierFault;
use crate::hashes::coding::{base64_of, spelled};
use crate::hashes::hmac::{DIGEST_BYTES, hmac_sha256};
use crate::hashes::pbkdf2::salted_password;
use crate::parts::parted;
use sha2::{Digest, Sha256};
use std::alloc::{AllocError, Global};

/// The rounds of each verifier: where real users had others, an unknown one would be told from them.
pub const ROUNDS: u32 = 4096;

/// The bytes of each verifier's salt, for the same reason.
pub const SALT_BYTES: usize = 16;

const BEGINNING: &str = "SCRAM-SHA-256$4096:";

/// By which a server knows that a client knows a password, without knowing it itself. It has no `Debug`.
#[derive(Clone, Copy, Drop)]
pub struct Verifier {
    pub(crate) salt: [u8; SALT_BYTES],
    pub(crate) stored_key: [u8; DIGEST_BYTES],
    pub(crate) server_key: [u8; DIGEST_BYTES],
}

impl Verifier {
    /// That of a password, as clients prepare it (`prepared`; ASCII stays as it is); the salt is to be random.
    /// `AllocError` where memory is refused.
    #[tactic(auto, unfolding(crate::specs::Keys::salted_password))]
    pub fn of_password(
        alloc: Global,
        password: &[u8],
        salt: [u8; SALT_BYTES],
    ) -> Result<Verifier, AllocError>
        ensures { IfOk result (λ verifier. IsVerifierOf password.now salt verifier) }
    {
        let salted = salted_password(alloc, password, salt.as_slice(), ROUNDS)?;
        let client_key = hmac_sha256(alloc, salted.as_slice(), b"Client Key")?;
        let server_key = hmac_sha256(alloc, salted.as_slice(), b"Server Key")?;
        Ok(Verifier {
            salt,
            stored_key: Sha256::digest(client_key.as_slice()),
            server_key,
        })
    }

    /// The verifier that the text spells, as PostgreSQL keeps it in `pg_authid` (PostgreSQL 15, 53.8); of 4096 rounds and a
    /// salt of 16 bytes, as PostgreSQL makes them. Of another scheme or other rounds it is `VerifierFault::NotServed`, of
    /// another form `Malformed`. Or `Memory`.
    #[tactic(auto, unfolding(crate::specs::Verifiers::read_verifier))]
    pub fn of_text(alloc: Global, text: &str) -> Result<Verifier, VerifierFault>
        ensures { Reads result (read_verifier text.now) }
    {
        let (scheme, rest) = parted(text.as_bytes(), b'$').ok_or(VerifierFault::NotServed)?;
        let (rounds, rest) = parted(rest, b':').ok_or(VerifierFault::NotServed)?;
        if scheme != b"SCRAM-SHA-256".as_slice() || rounds != b"4096".as_slice() {
            return Err(VerifierFault::NotServed);
        }
        let (salt, keys) = parted(rest, b'$').ok_or(VerifierFault::Malformed)?;
        let (stored_key, server_key) = parted(keys, b':').ok_or(VerifierFault::Malformed)?;
        Ok(Verifier {
            salt: spelled(alloc, salt)?.ok_or(VerifierFault::Malformed)?,
            stored_key: spelled(alloc, stored_key)?.ok_or(VerifierFault::Malformed)?,
            server_key: spelled(alloc, server_key)?.ok_or(VerifierFault::Malformed)?,
        })
    }

    /// Its text, as PostgreSQL keeps it. `AllocError` where memory for it is refused.
    pub fn text(&self, alloc: Global) -> Result<String, AllocError>
        ensures { IfOk result (λ text. string_bytes text ≡ verifier_text self.now) }
    {
        let mut text = String::from_str(alloc, BEGINNING)?;
        text.push_str(base64_of(alloc, &self.salt)?.as_str())?;
        text.push_str("$")?;
        text.push_str(base64_of(alloc, &self.stored_key)?.as_str())?;
        text.push_str(":")?;
        text.push_str(base64_of(alloc, &self.server_key)?.as_str())?;
        Ok(text)
    }
}
