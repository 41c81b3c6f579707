//! Why a client doesn't go on with a server.

ghost use Rattle.std.specs.Prelude.{◌≡◌};
ghost use Rattle.scram.specs.declared.client_side.server_fault.ServerFault.TheVariants as server;

use std::alloc::AllocError;
use thiserror::Error;

/// What is wrong with what a server says in an exchange.
#[derive(Clone, Copy, Debug, PartialEq, Eq, Error)]
pub enum ServerFault {
    #[error("the server's message is none of SCRAM-SHA-256")]
    Malformed,
    #[error("the server wants an extension of SCRAM-SHA-256 that isn't known")]
    Extension,
    #[error("the server's nonce doesn't begin with the one that was sent")]
    Nonce,
    #[error("the server's salt is not in base64")]
    Salt,
    #[error("the server's iteration count is not from 1 to 1000000")]
    Rounds,
    #[error("the server refuses the exchange")]
    Refused,
    #[error("the server doesn't prove that it knows the password")]
    Signature,
    #[error("out of memory")]
    Memory,
}

impl From<AllocError> for ServerFault {
    ghost from_gives = { λ _ e. e ≡ server.Memory };

    fn from(_e: AllocError) -> ServerFault {
        ServerFault::Memory
    }
}
