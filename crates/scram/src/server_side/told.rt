//! What a client is told of an exchange that fails, as PostgreSQL 15 tells it.

ghost use Rattle.std.specs.Prelude.{◌≡◌, ◌≤◌, length};
ghost use Rattle.scram.specs.Told.{fault_code, fault_text};

use crate::fault::{ExchangeFault, Malformed};
use std::alloc::{AllocError, Global};

impl ExchangeFault {
    /// The code (PostgreSQL 15, appendix A) and the text; of a wrong password PostgreSQL names the user after it.
    pub fn told(self) -> (&'static str, &'static str)
        ensures code { result.0.now ≡ fault_code self }
        ensures text { result.1.now ≡ fault_text self }
        ensures short { (length result.0.now ≤ 40) × (length result.1.now ≤ 80) }
    {
        match self {
            ExchangeFault::NoMechanism => ("08P01", "invalid string in message"),
            ExchangeFault::Mechanism => (
                "08P01",
                "client selected an invalid SASL authentication mechanism",
            ),
            ExchangeFault::Short => ("08P01", "insufficient data left in message"),
            ExchangeFault::Trailing => ("08P01", "invalid message format"),
            ExchangeFault::Malformed(_) => ("08P01", "malformed SCRAM message"),
            ExchangeFault::AuthorizationIdentity => (
                "0A000",
                "client uses authorization identity, but it is not supported",
            ),
            ExchangeFault::Extension => {
                ("0A000", "client requires an unsupported SCRAM extension")
            }
            ExchangeFault::UnprintableNonce => {
                ("08P01", "non-printable characters in SCRAM nonce")
            }
            ExchangeFault::Binding => (
                "08P01",
                "unexpected SCRAM channel-binding attribute in client-final-message",
            ),
            ExchangeFault::Nonce => ("08P01", "invalid SCRAM response"),
            ExchangeFault::Password => ("28P01", "password authentication failed for user"),
            ExchangeFault::Memory => ("53200", "out of memory"),
        }
    }

    /// What is told beside it: of `Malformed` and `Nonce` something is, else None. `AllocError` where memory for it is refused.
    pub fn detail(self, alloc: Global) -> Result<Option<String>, AllocError> {
        match self {
            ExchangeFault::Malformed(form) => Ok(Some(form.detail(alloc)?)),
            ExchangeFault::Nonce => Ok(Some(String::from_str(alloc, "Nonce does not match.")?)),
            _ => Ok(None),
        }
    }
}

impl Malformed {
    fn detail(self, alloc: Global) -> Result<String, AllocError> {
        match self {
            Malformed::Flag(b) => {
                let found = shown(alloc, b)?;
                format!(in alloc; "Unexpected channel-binding flag \"{found}\".")
            }
            Malformed::Comma(b) => {
                let found = shown(alloc, b)?;
                format!(in alloc; "Comma expected, but found character \"{found}\".")
            }
            Malformed::Unexpected(b) => {
                let found = shown(alloc, b)?;
                format!(in alloc; "Unexpected attribute \"{found}\" in client-first-message.")
            }
            Malformed::Expected(attribute, b) => {
                let found = shown(alloc, b)?;
                let attribute = char::from(attribute);
                format!(in alloc; "Expected attribute \"{attribute}\" but found \"{found}\".")
            }
            Malformed::Equals(attribute) => {
                let attribute = char::from(attribute);
                format!(in alloc; "Expected character \"=\" for attribute \"{attribute}\".")
            }
            Malformed::Letter(b) => {
                let found = shown(alloc, b)?;
                format!(in alloc; "Attribute expected, but found invalid character \"{found}\".")
            }
            other => String::from_str(alloc, other.fixed()),
        }
    }

    /// The text of one that tells no byte.
    fn fixed(self) -> &'static str {
        match self {
            Malformed::Empty => "The message is empty.",
            Malformed::ZeroByte => "Message length does not match input length.",
            Malformed::Bound => {
                "The client selected SCRAM-SHA-256 without channel binding, but the SCRAM message includes channel binding data."
            }
            Malformed::Attribute => "Attribute expected, but found end of string.",
            Malformed::Proof => "Malformed proof in client-final-message.",
            Malformed::Garbage => "Garbage found at the end of client-final-message.",
            _ => "",
        }
    }
}

/// A byte as PostgreSQL shows it.
fn shown(alloc: Global, b: u8) -> Result<String, AllocError> {
    if b.is_ascii_graphic() {
        let b = char::from(b);
        return format!(in alloc; "'{b}'");
    }
    format!(in alloc; "0x{b:02x}")
}
