//! Why a connection was not taken, and why one ended that was served.

ghost use Rattle.std.specs.Prelude.{◌≡◌};
ghost use Rattle.connections.specs.declared.fault.ConnectionEnd.TheVariants as ends;

use std::alloc::AllocError;
use std::io;
use thiserror::Error;

/// Why one connection was not taken.
#[derive(Debug, Drop, Error)]
pub enum AcceptError {
    #[error("a connection could not be accepted: {0}")]
    Accept(io::Error),
    #[error("a connection was closed, since {0}")]
    Closed(ConnectionRefusal),
}

/// Why a connection that came is not served.
#[derive(Clone, Copy, Debug, PartialEq, Eq, Error)]
pub enum ConnectionRefusal {
    #[error("no thread was to be had for it")]
    Thread,
    #[error("no descriptor was to be had for it")]
    Descriptor,
    #[error("no memory was to be had for it")]
    Memory,
    #[error("max_connections are served")]
    Crowd,
    #[error("the server ends")]
    ServerEnd,
}

/// Why a connection ended that was served.
#[derive(Clone, Copy, Debug, PartialEq, Eq, Error)]
pub enum ConnectionEnd {
    #[error("closed by its client")]
    Client,
    #[error("lost: it cannot be read")]
    Lost,
    #[error("closed: its client sent what no server takes then")]
    Refused,
    #[error("closed: no startup came within authentication_timeout")]
    NoStartup,
    #[error("closed: no random bytes were to be had for its password")]
    NoNonce,
    #[error("closed: its client was silent for wal_sender_timeout")]
    Silent,
    #[error("closed: its client took nothing for wal_sender_timeout")]
    Stalled,
    #[error("closed: out of memory")]
    Memory,
    #[error("closed: transactions in progress fill the chunks of its stream")]
    FullArena,
    #[error("closed: transactions in progress fill the chunks of its stream, and take {0}: set chunks in [server]")]
    TooFewChunks(u32),
    #[error("closed: the log lets no reader in")]
    NoEntry,
    #[error("closed: the log's records for its stream have been removed")]
    Removed,
    #[error("cut on purpose")]
    Cut,
    #[error("closed: the server ends")]
    ServerEnd,
}

impl ConnectionEnd {
    /// Whether its writing thread tells why, and not its reading thread.
    pub fn is_of_writing(self) -> bool {
        matches!(
            self,
            ConnectionEnd::Stalled
                | ConnectionEnd::Memory
                | ConnectionEnd::FullArena
                | ConnectionEnd::TooFewChunks(_)
                | ConnectionEnd::NoEntry
                | ConnectionEnd::Removed
                | ConnectionEnd::Cut
        )
    }
}

impl From<AllocError> for ConnectionEnd {
    ghost from_gives = { λ _ e. e ≡ ends.Memory };

    fn from(_e: AllocError) -> ConnectionEnd {
        ConnectionEnd::Memory
    }
}
