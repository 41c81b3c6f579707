//! The first message of a client.

ghost use Rattle.std.specs.Prelude.{◌≡◌};
ghost use Rattle.scram.specs.Attributes.{Answers, Moves};
ghost use Rattle.scram.specs.ClientFirst.{GivesBinding, binding_at, client_first_of, identity_at, is_printable, repeated};

use crate::client_side::attributes::Attributes;
use crate::fault::{ExchangeFault, Malformed};
use pqformat::Items;
use std::alloc::Global;

/// What a client says of channel binding where none is offered.
#[derive(Clone, Copy, PartialEq, Eq)]
pub(crate) enum Binding {
    /// That it has none: `n,,`.
    Absent,
    /// That it has it, and thinks that the server hasn't: `y,,`.
    Unused,
}

impl Binding {
    /// How the last message must repeat it: the header in base64.
    pub(crate) fn repeated(self) -> &'static [u8]
        ensures { result.now ≡ repeated self }
    {
        match self {
            Binding::Absent => b"biws",
            Binding::Unused => b"eSws",
        }
    }
}

/// What the message says.
#[derive(Drop)]
pub(crate) struct ClientFirst {
    pub(crate) binding: Binding,
    /// All after its header.
    pub(crate) bare: Items<u8>,
    pub(crate) nonce: Items<u8>,
}

impl ClientFirst {
    /// The message that this text spells. The user's name in it is passed over: that of the startup counts.
    #[tactic(auto, using(crate::proofs::Failing::fails), unfolding(crate::specs::ClientFirst::client_first_of))]
    pub(crate) fn of(alloc: Global, text: &[u8]) -> Result<ClientFirst, ExchangeFault>
        ensures { Answers result (client_first_of text.now) }
    {
        let mut attributes = Attributes::new(text)?;
        let binding = binding_at(&mut attributes)?;
        pass_identity(&mut attributes)?;
        let bare = attributes.rest();
        if attributes.front() == b'm' {
            return Err(ExchangeFault::Extension);
        }
        attributes.named(b'n')?;
        let nonce = attributes.named(b'r')?;
        if !is_printable(nonce) {
            return Err(ExchangeFault::UnprintableNonce);
        }
        attributes.extensions()?;
        Ok(ClientFirst {
            binding,
            bare: Items::new(Vec::from_slice(alloc, bare)?),
            nonce: Items::new(Vec::from_slice(alloc, nonce)?),
        })
    }
}

/// The flag of channel binding, and the comma after it.
fn binding_at(attributes: &mut Attributes<'_>) -> Result<Binding, ExchangeFault>
    ensures { GivesBinding result attributes.new (binding_at attributes.old) }
{
    let binding = match attributes.front() {
        b'n' => Binding::Absent,
        b'y' => Binding::Unused,
        b'p' => return Err(ExchangeFault::Malformed(Malformed::Bound)),
        other => return Err(ExchangeFault::Malformed(Malformed::Flag(other))),
    };
    attributes.step();
    let comma = attributes.front();
    if comma != b',' {
        return Err(ExchangeFault::Malformed(Malformed::Comma(comma)));
    }
    attributes.step();
    Ok(binding)
}

/// The place of an authorization identity, which must be empty.
fn pass_identity(attributes: &mut Attributes<'_>) -> Result<(), ExchangeFault>
    ensures { Moves result attributes.new (identity_at attributes.old) }
{
    match attributes.front() {
        b',' => {}
        b'a' => return Err(ExchangeFault::AuthorizationIdentity),
        other => return Err(ExchangeFault::Malformed(Malformed::Unexpected(other))),
    }
    attributes.step();
    Ok(())
}

fn is_printable(nonce: &[u8]) -> bool
    ensures { result ≡ is_printable nonce.now }
{
    nonce.iter().all(|b| 0x21 <= *b && *b <= 0x7e && *b != b',')
}
