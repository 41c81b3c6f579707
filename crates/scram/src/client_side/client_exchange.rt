//! The client's side of an exchange (RFC 5802, 3): its first message, its answer to the server's first one, and whether the server's
//! last one proves that the server knows the password too.

ghost use Rattle.std.specs.Prelude.{◌≡◌, IfOk, List, Ok, ℕ};
ghost use Rattle.std.specs.Str.{bytes_eq};
ghost use Rattle.scram.specs.Hmac.{hmac};
ghost use Rattle.scram.specs.Challenges.{Answers};
ghost use Rattle.scram.specs.ClientExchanges.{KnowsPassword, answered, auth_message, client_first, confirmed, first_bare, last_said, proof, without_proof};
ghost use Rattle.scram.specs.Exchanges.{signed};
ghost use Rattle.scram.specs.Keys.{server_key};
ghost use Rattle.scram.specs.declared.client_side.client_exchange.ClientAnswer.{ClientAnswer};
ghost use Rattle.scram.specs.declared.client_side.client_exchange.ClientExchange.{ClientExchange};

use crate::client_side::server_fault::ServerFault;
use crate::client_side::server_first::{ServerFirst, attribute_of};
use crate::hashes::coding::base64_of;
use crate::hashes::hmac::hmac_sha256;
use crate::hashes::pbkdf2::{salted_password, xor};
use pqformat::Items;
use sha2::{Digest, Sha256};
use std::alloc::{AllocError, Global};

/// An exchange that a client begins.
#[derive(Drop)]
pub struct ClientExchange {
    pub(crate) name: Items<u8>,
    pub(crate) nonce: Items<u8>,
}

/// A client's last message, and what the server has to say to it.
#[derive(Drop)]
pub struct ClientAnswer {
    pub said: Items<u8>,
    pub(crate) due: Items<u8>,
}

impl ClientExchange {
    /// One of this name and this nonce. PostgreSQL's clients name nobody, since its servers pass over the name for that of the
    /// startup; a name is to have `=2C` in the place of a comma, and `=3D` in that of an equals sign. The nonce is to be new and
    /// random, printable, and without a comma.
    pub fn new(name: Items<u8>, nonce: Items<u8>) -> Self
        ensures { result ≡ record { name = name; nonce = nonce } }
    {
        ClientExchange { name, nonce }
    }

    /// The first message, without channel binding (PostgreSQL 15, 55.3.1). `AllocError` where memory for it is refused.
    pub fn first(&self, alloc: Global) -> Result<Items<u8>, AllocError>
        ensures { IfOk result (λ text. text ≡ client_first self.now) }
    {
        let mut text = Vec::from_slice(alloc, b"n,,")?;
        text.extend_from_slice(self.first_bare(alloc)?.as_slice())?;
        Ok(Items::new(text))
    }

    fn first_bare(&self, alloc: Global) -> Result<Items<u8>, AllocError>
        ensures { IfOk result (λ text. text ≡ first_bare self.now) }
    {
        let mut text = Vec::from_slice(alloc, b"n=")?;
        text.extend_from_slice(self.name.as_slice())?;
        text.extend_from_slice(b",r=")?;
        text.extend_from_slice(self.nonce.as_slice())?;
        Ok(Items::new(text))
    }

    /// The answer of the server's first message, by a password as `prepared` leaves it; ASCII stays as it is.
    /// Refuses a message that wants an extension (`ServerFault::Extension`), is of another form (`Malformed`), repeats another
    /// nonce (`Nonce`), or has no salt in base64 (`Salt`) or no count of 1 to 1,000,000 rounds (`Rounds`). Or `Memory`.
    #[tactic(auto, using(crate::proofs::ServerFailing::fails))]
    pub fn answer(
        &self,
        alloc: Global,
        password: &[u8],
        text: &[u8],
    ) -> Result<ClientAnswer, ServerFault>
        ensures { Answers result (answered password.now self.now text.now) }
    {
        let first = ServerFirst::of(alloc, self.nonce.as_slice(), text)?;
        let salted = salted_password(alloc, password, first.salt.as_slice(), first.rounds)?;
        let without_proof = without_proof(alloc, first.nonce.as_slice())?;
        let message = self.auth_message(alloc, text, without_proof.as_slice())?;
        let proof = proof(alloc, salted.as_slice(), message.as_slice())?;
        let said = last_said(alloc, without_proof.as_slice(), proof.as_slice())?;
        let due = due(alloc, salted.as_slice(), message.as_slice())?;
        Ok(ClientAnswer { said, due })
    }

    /// What both sides sign.
    fn auth_message(
        &self,
        alloc: Global,
        challenge: &[u8],
        without_proof: &[u8],
    ) -> Result<Items<u8>, AllocError>
        ensures { IfOk result
            (λ text. text ≡ auth_message self.now challenge.now without_proof.now) }
    {
        let bare = self.first_bare(alloc)?;
        let mut text = Vec::from_slice(alloc, bare.as_slice())?;
        text.extend_from_slice(b",")?;
        text.extend_from_slice(challenge)?;
        text.extend_from_slice(b",")?;
        text.extend_from_slice(without_proof)?;
        Ok(Items::new(text))
    }
}

impl ClientAnswer {
    /// Whether the server's last message proves that it knows the password too. One that tells an error is
    /// `ServerFault::Refused`, another one than the due one `Signature`.
    pub fn confirm(&self, text: &[u8]) -> Result<(), ServerFault>
        ensures { result ≡ confirmed self.now text.now }
    {
        if text == self.due.as_slice() {
            return Ok(());
        }
        if attribute_of(text, b'e').is_some() {
            return Err(ServerFault::Refused);
        }
        Err(ServerFault::Signature)
    }
}

/// The last message up to the comma of its proof.
fn without_proof(alloc: Global, nonce: &[u8]) -> Result<Items<u8>, AllocError>
    ensures { IfOk result (λ text. text ≡ without_proof nonce.now) }
{
    let mut text = Vec::from_slice(alloc, b"c=biws,r=")?;
    text.extend_from_slice(nonce)?;
    Ok(Items::new(text))
}

/// The proof that the client knows the password of which this was made.
fn proof(alloc: Global, salted: &[u8], message: &[u8]) -> Result<Items<u8>, AllocError>
    ensures { IfOk result (λ bytes. bytes ≡ proof salted.now message.now) }
{
    let key = hmac_sha256(alloc, salted, b"Client Key")?;
    let stored = Sha256::digest(key.as_slice());
    let signature = hmac_sha256(alloc, stored.as_slice(), message)?;
    Ok(Items::new(xor(alloc, key.as_slice(), signature.as_slice())?))
}

fn last_said(alloc: Global, without_proof: &[u8], proof: &[u8]) -> Result<Items<u8>, AllocError>
    ensures { IfOk result (λ text. text ≡ last_said without_proof.now proof.now) }
{
    let mut text = Vec::from_slice(alloc, without_proof)?;
    text.extend_from_slice(b",p=")?;
    text.extend_from_slice(base64_of(alloc, proof)?.as_bytes())?;
    Ok(Items::new(text))
}

/// What a server says that knows the password.
fn due(alloc: Global, salted: &[u8], message: &[u8]) -> Result<Items<u8>, AllocError>
    ensures { IfOk result (λ text. text ≡ signed (server_key salted.now) message.now) }
{
    let key = hmac_sha256(alloc, salted, b"Server Key")?;
    let signature = hmac_sha256(alloc, key.as_slice(), message)?;
    let mut text = Vec::from_slice(alloc, b"v=")?;
    text.extend_from_slice(base64_of(alloc, signature.as_slice())?.as_bytes())?;
    Ok(Items::new(text))
}

/// The law of a client's exchange: what confirms it is said by one who knows the key that a server keeps of the password, under
/// the salt and the rounds that it told, and over all that both said.
pub fn confirms_only_by_the_password()
    ensures { (password challenge said : List ℕ) (exchange : ClientExchange) (answer : ClientAnswer) →
        answered password exchange challenge ≡ Ok answer → confirmed answer said ≡ Ok tt →
        KnowsPassword password exchange challenge said }
{}
