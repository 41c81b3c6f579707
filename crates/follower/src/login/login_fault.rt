//! Why a server doesn't take a client, or isn't taken by it.

use scram::ServerFault;
use std::alloc::AllocError;
use thiserror::Error;

/// Why no proof of a password was given or taken.
#[derive(Clone, Copy, Debug, PartialEq, Eq, Error)]
pub enum LoginFault {
    #[error("the user's name is empty, too long, or has a zero byte")]
    User,
    #[error("the server asks for a password, and none was given")]
    NoPassword,
    #[error("the server wants the password in clear text, which isn't sent")]
    Cleartext,
    #[error("the server wants the password by MD5, which isn't sent")]
    Md5,
    #[error("the server wants something else than a password")]
    Other,
    #[error("the server offers no SCRAM-SHA-256")]
    Mechanism,
    #[error("the system gives no random bytes")]
    Nonce,
    #[error("{0}")]
    Server(ServerFault),
}

impl From<ServerFault> for LoginFault {
    fn from(fault: ServerFault) -> LoginFault {
        LoginFault::Server(fault)
    }
}
