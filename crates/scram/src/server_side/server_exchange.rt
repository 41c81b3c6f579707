//! The server's side of an exchange (RFC 5802, 3): the client's first message is answered by a challenge, and its last one by the
//! server's signature, or not at all.

ghost use Rattle.std.specs.Prelude.{◌≡◌, IfOk, Err};
ghost use Rattle.std.specs.Str.{bytes_eq};
ghost use Rattle.scram.specs.Attributes.{Answers};
ghost use Rattle.scram.specs.Exchanges.{HasProved, auth_message, begun, challenge, is_proof, signed, verdict};

use crate::client_side::client_final::ClientFinal;
use crate::client_side::client_first::ClientFirst;
use crate::fault::ExchangeFault;
use crate::hashes::coding::base64_of;
use crate::hashes::digest::is_same;
use crate::hashes::hmac::{DIGEST_BYTES, hmac_sha256};
use crate::hashes::pbkdf2::xor;
use crate::server_side::account::Account;
use pqformat::Items;
use sha2::{Digest, Sha256};
use std::alloc::{AllocError, Global};

/// An exchange whose first message has come.
#[derive(Drop)]
pub struct Exchange {
    pub(crate) account: Account,
    pub(crate) first: ClientFirst,
    /// Both nonces.
    pub(crate) nonce: Items<u8>,
}

impl Exchange {
    /// Begins by the client's first message. The server's nonce is to be new and random, printable, and without a comma. A
    /// message of another form is `ExchangeFault::Malformed`. One that names another user to act for is
    /// `AuthorizationIdentity`, one that wants an extension `Extension`, and one whose nonce can't be printed
    /// `UnprintableNonce`. Or `Memory`.
    #[tactic(auto, using(crate::proofs::Failing::fails))]
    pub fn begin(
        alloc: Global,
        account: Account,
        nonce: &[u8],
        text: &[u8],
    ) -> Result<Exchange, ExchangeFault>
        ensures { Answers result (begun account nonce.now text.now) }
    {
        let first = ClientFirst::of(alloc, text)?;
        let mut both = Vec::from_slice(alloc, first.nonce.as_slice())?;
        both.extend_from_slice(nonce)?;
        Ok(Exchange {
            account,
            first,
            nonce: Items::new(both),
        })
    }

    /// The message that asks for a proof: both nonces, the salt and the rounds. `AllocError` where memory for it is refused.
    pub fn challenge(&self, alloc: Global) -> Result<Items<u8>, AllocError>
        ensures { IfOk result (λ text. text ≡ challenge self.now) }
    {
        let salt = base64_of(alloc, &self.account.verifier.salt)?;
        let mut text = Vec::from_slice(alloc, b"r=")?;
        text.extend_from_slice(self.nonce.as_slice())?;
        text.extend_from_slice(b",s=")?;
        text.extend_from_slice(salt.as_bytes())?;
        text.extend_from_slice(b",i=4096")?;
        Ok(Items::new(text))
    }

    /// The answer of the client's last message: the server's signature, by which the client knows the server, where the client
    /// has proved that it knows the password of a known user. A message of another form is `ExchangeFault::Malformed`. One that
    /// repeats another header is `Binding`, one that repeats other nonces `Nonce`, and one with another proof, or of an unknown
    /// user, `Password`. Or `Memory`.
    #[tactic(auto, using(crate::proofs::Failing::fails))]
    pub fn finish(&self, alloc: Global, text: &[u8]) -> Result<Items<u8>, ExchangeFault>
        ensures exact { Answers result (verdict self.now text.now) }
        ensures proved { IfOk result (λ said. HasProved self.now text.now said) }
    {
        let last = ClientFinal::of(alloc, self.first.binding, text)?;
        if last.nonce.as_slice() != self.nonce.as_slice() {
            return Err(ExchangeFault::Nonce);
        }
        let message = self.auth_message(alloc, last.without_proof.as_slice())?;
        let is_proof = self.is_proof(alloc, message.as_slice(), &last.proof)?;
        let signature = self.signed(alloc, message.as_slice())?;
        if is_proof && self.account.is_known {
            return Ok(signature);
        }
        Err(ExchangeFault::Password)
    }

    /// What both sides sign.
    fn auth_message(&self, alloc: Global, without_proof: &[u8]) -> Result<Items<u8>, AllocError>
        ensures { IfOk result (λ text. text ≡ auth_message self.now without_proof.now) }
    {
        let challenge = self.challenge(alloc)?;
        let mut text = Vec::from_slice(alloc, self.first.bare.as_slice())?;
        text.extend_from_slice(b",")?;
        text.extend_from_slice(challenge.as_slice())?;
        text.extend_from_slice(b",")?;
        text.extend_from_slice(without_proof)?;
        Ok(Items::new(text))
    }

    /// Whether the proof, less its signature, is the key whose digest is kept.
    fn is_proof(
        &self,
        alloc: Global,
        message: &[u8],
        proof: &[u8; DIGEST_BYTES],
    ) -> Result<bool, AllocError>
        ensures { IfOk result
            (λ right. right ≡ is_proof self.now.account.verifier.stored_key message.now proof.now) }
    {
        let stored_key = self.account.verifier.stored_key;
        let signature = hmac_sha256(alloc, stored_key.as_slice(), message)?;
        let key = xor(alloc, proof.as_slice(), signature.as_slice())?;
        let digest = Sha256::digest(key.as_slice());
        Ok(is_same(&digest, &stored_key))
    }

    /// The server's last message.
    fn signed(&self, alloc: Global, message: &[u8]) -> Result<Items<u8>, AllocError>
        ensures { IfOk result
            (λ text. text ≡ signed self.now.account.verifier.server_key message.now) }
    {
        let server_key = self.account.verifier.server_key;
        let signature = hmac_sha256(alloc, server_key.as_slice(), message)?;
        let mut text = Vec::from_slice(alloc, b"v=")?;
        text.extend_from_slice(base64_of(alloc, signature.as_slice())?.as_bytes())?;
        Ok(Items::new(text))
    }
}
