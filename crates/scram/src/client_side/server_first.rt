//! The first message of a server, as a client reads it.

ghost use Rattle.std.specs.Prelude.{◌≡◌, ◌<◌, IfOk, drop, length, option_map, take};
ghost use Rattle.std.specs.Str.{bytes_eq};
ghost use Rattle.scram.specs.Challenges.{Answers, attribute_of, server_first_of};

use crate::client_side::iteration_count::rounds_of;
use crate::client_side::server_fault::ServerFault;
use crate::hashes::coding::decoded;
use crate::parts::parted;
use pqformat::Items;
use std::alloc::Global;

/// What the message says.
#[derive(Drop)]
pub(crate) struct ServerFirst {
    /// Both nonces.
    pub(crate) nonce: Items<u8>,
    pub(crate) salt: Items<u8>,
    pub(crate) rounds: u32,
}

impl ServerFirst {
    /// The message that this text spells, to a client that sent this nonce.
    #[tactic(auto, using(crate::proofs::ServerFailing::fails), unfolding(crate::specs::Challenges::server_first_of))]
    pub(crate) fn of(alloc: Global, own: &[u8], text: &[u8]) -> Result<ServerFirst, ServerFault>
        ensures exact { Answers result (server_first_of own.now text.now) }
        ensures positive { IfOk result (λ first. 0 < first.rounds) }
    {
        if attribute_of(text, b'm').is_some() {
            return Err(ServerFault::Extension);
        }
        let (nonce, rest) = parted(text, b',').ok_or(ServerFault::Malformed)?;
        let (salt, rounds) = parted(rest, b',').ok_or(ServerFault::Malformed)?;
        let nonce = attribute_of(nonce, b'r').ok_or(ServerFault::Malformed)?;
        if !begins_with(nonce, own) {
            return Err(ServerFault::Nonce);
        }
        let salt = attribute_of(salt, b's').ok_or(ServerFault::Malformed)?;
        let salt = decoded(alloc, salt)?.ok_or(ServerFault::Salt)?;
        let rounds = attribute_of(rounds, b'i').ok_or(ServerFault::Malformed)?;
        if rounds.contains(&b',') {
            return Err(ServerFault::Extension);
        }
        let rounds = rounds_of(rounds).ok_or(ServerFault::Rounds)?;
        Ok(ServerFirst {
            nonce: Items::new(Vec::from_slice(alloc, nonce)?),
            salt,
            rounds,
        })
    }
}

/// The value, where the text is this attribute.
pub(crate) fn attribute_of(text: &[u8], attribute: u8) -> Option<&[u8]>
    ensures { option_map (λ value. value.now) result ≡ attribute_of attribute text.now }
{
    if text.len() < 2 || text[0] != attribute || text[1] != b'=' {
        return None;
    }
    Some(&text[2..])
}

fn begins_with(text: &[u8], front: &[u8]) -> bool
    ensures { result ≡ bytes_eq (take (length front.now) text.now) front.now }
{
    &text[..front.len().min(text.len())] == front
}
