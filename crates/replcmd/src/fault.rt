//! The faults of commands, C1 to C6.

ghost use Rattle.std.specs.Prelude.{◌≡◌};
ghost use Rattle.replcmd.specs.declared.fault.CmdFault.TheVariants.{Memory};

use std::alloc::{AllocError, AllocFailed};
use thiserror::Error;

/// What is wrong with an option of START_REPLICATION, or with all of them (PostgreSQL 15, 55.4 and 55.5).
#[derive(Clone, Copy, Debug, PartialEq, Eq)]
pub enum OptionFault {
    /// An option of another name than those that are known; `unrecognized_option` tells it.
    Unrecognized,
    /// A `proto_version` that isn't 1, or that is no number.
    Version,
    /// A `proto_version` that is neither 1, 2 nor 3.
    OtherVersion,
    /// A value of `publication_names` that is no list of names.
    PublicationNames,
    /// A value of `messages` that is no truth value.
    Messages,
    /// An option that isn't served, and is told to ask for something.
    NotServed(Unserved),
    /// An option that isn't served, and has a value that is no truth value.
    NoTruth(Unserved),
    /// An option that stands twice.
    Redundant,
    /// No `proto_version`.
    VersionMissing,
    /// No `publication_names`.
    PublicationNamesMissing,
}

/// An option that isn't served, and may be told to ask for nothing, as clients do that name all they know.
#[derive(Clone, Copy, Debug, PartialEq, Eq)]
pub enum Unserved {
    /// Values in the binary form of their types.
    Binary,
    /// Changes of transactions in progress.
    Streaming,
    /// Transactions that are prepared.
    TwoPhase,
}

/// Why no command was read.
#[derive(Clone, Copy, Debug, PartialEq, Eq, Error)]
pub enum CmdFault {
    #[error("C1: syntax error")]
    Syntax,
    #[error("C2: bad slot name")]
    BadName,
    #[error("C3: bad position")]
    BadPosition,
    #[error("C4: not supported")]
    Unsupported,
    #[error("C5: bad option")]
    BadOption(OptionFault),
    #[error("C6: out of memory")]
    Memory,
}

impl From<AllocError> for CmdFault {
    ghost from_gives = { λ _ e. e ≡ Memory };

    fn from(_e: AllocError) -> CmdFault {
        CmdFault::Memory
    }
}

impl<T: Drop> From<AllocFailed<T>> for CmdFault {
    ghost from_gives = { λ _ e. e ≡ Memory };

    fn from(_e: AllocFailed<T>) -> CmdFault {
        CmdFault::Memory
    }
}
