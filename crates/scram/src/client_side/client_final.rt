//! The last message of a client.

ghost use Rattle.std.specs.Prelude.{◌≡◌};
ghost use Rattle.scram.specs.Attributes.{Answers};
ghost use Rattle.scram.specs.ClientFinal.{client_final_of, proof_of};

use crate::client_side::attributes::Attributes;
use crate::client_side::client_first::Binding;
use crate::fault::{ExchangeFault, Malformed};
use crate::hashes::coding::spelled;
use crate::hashes::hmac::DIGEST_BYTES;
use pqformat::Items;
use std::alloc::Global;

/// What the message says.
#[derive(Drop)]
pub(crate) struct ClientFinal {
    pub(crate) nonce: Items<u8>,
    /// All before the comma of its proof.
    pub(crate) without_proof: Items<u8>,
    pub(crate) proof: [u8; DIGEST_BYTES],
}

impl ClientFinal {
    /// The message that this text spells, after a first one that said this of channel binding.
    #[tactic(auto, using(crate::proofs::Failing::fails), unfolding(crate::specs::ClientFinal::client_final_of))]
    pub(crate) fn of(
        alloc: Global,
        binding: Binding,
        text: &[u8],
    ) -> Result<ClientFinal, ExchangeFault>
        ensures { Answers result (client_final_of binding text.now) }
    {
        let mut attributes = Attributes::new(text)?;
        if attributes.named(b'c')? != binding.repeated() {
            return Err(ExchangeFault::Binding);
        }
        let nonce = attributes.named(b'r')?;
        let (standing, proof) = attributes.proof()?;
        let proof = proof_of(alloc, proof)?;
        attributes.end()?;
        let without_proof = &text[..text.len().saturating_sub(standing).saturating_sub(1)];
        Ok(ClientFinal {
            nonce: Items::new(Vec::from_slice(alloc, nonce)?),
            without_proof: Items::new(Vec::from_slice(alloc, without_proof)?),
            proof,
        })
    }
}

fn proof_of(alloc: Global, text: &[u8]) -> Result<[u8; DIGEST_BYTES], ExchangeFault>
    ensures { Answers result (proof_of text.now) }
{
    spelled(alloc, text)?.ok_or(ExchangeFault::Malformed(Malformed::Proof))
}
