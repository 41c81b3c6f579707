//! Why a verifier isn't read, and why an exchange fails.

ghost use Rattle.std.specs.Prelude.{◌≡◌};
ghost use Rattle.scram.specs.declared.fault.ExchangeFault.TheVariants as exchange;
ghost use Rattle.scram.specs.declared.fault.VerifierFault.TheVariants as verifier;

use std::alloc::{AllocError, AllocFailed};
use thiserror::Error;

/// Why a text is no verifier that is served.
#[derive(Clone, Copy, Debug, PartialEq, Eq, Error)]
pub enum VerifierFault {
    #[error("a verifier begins with SCRAM-SHA-256$4096:")]
    NotServed,
    #[error("a verifier has a salt of 16 bytes and two keys of 32, in base64")]
    Malformed,
    #[error("out of memory")]
    Memory,
}

/// What is wrong with the form of a client's message. A byte is 0 where the message ends.
#[derive(Clone, Copy, Debug, PartialEq, Eq)]
pub enum Malformed {
    Empty,
    /// A zero byte stands in it.
    ZeroByte,
    /// It doesn't begin with a flag of channel binding.
    Flag(u8),
    /// Channel binding is used, which is not offered.
    Bound,
    /// This stands where a comma must.
    Comma(u8),
    /// This begins what stands where an authorization identity may.
    Unexpected(u8),
    /// Another byte stands where this attribute must.
    Expected(u8, u8),
    /// No `=` stands after this attribute.
    Equals(u8),
    /// It ends where an attribute must stand.
    Attribute,
    /// This is no letter, and stands where one must.
    Letter(u8),
    /// The proof is no digest in base64.
    Proof,
    /// Something stands after the proof.
    Garbage,
}

/// Why an exchange fails.
#[derive(Clone, Copy, Debug, PartialEq, Eq)]
pub enum ExchangeFault {
    /// The name of the mechanism doesn't end.
    NoMechanism,
    /// The client chose a mechanism that isn't offered.
    Mechanism,
    /// The first message isn't there whole.
    Short,
    /// Something stands after it.
    Trailing,
    Malformed(Malformed),
    /// The client wants to act for another user.
    AuthorizationIdentity,
    /// The client wants an extension.
    Extension,
    /// The client's nonce has bytes that can't be printed.
    UnprintableNonce,
    /// The client repeats another header than it sent.
    Binding,
    /// The client repeats other nonces.
    Nonce,
    /// The client doesn't know the password.
    Password,
    Memory,
}

impl From<AllocError> for VerifierFault {
    ghost from_gives = { λ _ e. e ≡ verifier.Memory };

    fn from(_e: AllocError) -> VerifierFault {
        VerifierFault::Memory
    }
}

impl From<AllocError> for ExchangeFault {
    ghost from_gives = { λ _ e. e ≡ exchange.Memory };

    fn from(_e: AllocError) -> ExchangeFault {
        ExchangeFault::Memory
    }
}

impl<T: Drop> From<AllocFailed<T>> for ExchangeFault {
    ghost from_gives = { λ _ e. e ≡ exchange.Memory };

    fn from(_e: AllocFailed<T>) -> ExchangeFault {
        ExchangeFault::Memory
    }
}
