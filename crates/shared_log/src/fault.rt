//! Why a reader got no records: E1 to E3.

use std::alloc::AllocError;
use thiserror::Error;

/// Why no records were fetched. The reader stays where it is.
#[derive(Clone, Copy, Debug, PartialEq, Eq, Error)]
pub enum ReadFault {
    /// The entry was refused, and nothing more of the log was seen.
    #[error("E1: the log lets no reader in")]
    NoEntry,
    /// The log that was entered lacks what the reader had learnt of. Nobody meets it, since a record is published before its
    /// receipt is given; no contract tells that.
    #[error("E1: the log lacks what was learnt of")]
    Stale,
    /// The log was entered, and holds all that was learnt.
    #[error("E2: out of memory")]
    Memory,
    /// The log was entered, and what was asked for stands before the records that lie in memory.
    #[error("E3: the log's records there have been removed")]
    Removed,
}

impl From<AllocError> for ReadFault {
    fn from(_e: AllocError) -> ReadFault {
        ReadFault::Memory
    }
}
