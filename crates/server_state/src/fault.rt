//! Why no hub was made, and why serving ended.

ghost use Rattle.std.specs.Prelude.{◌≡◌};
ghost use Rattle.server_state.specs.declared.fault.HubFault.TheVariants.{Memory};
ghost use Rattle.server_state.specs.declared.fault.NoteFault.TheVariants as notes;

use crate::disk::disk_fault::DiskFault;
use segments::RecoveryFault;
use server::BackendFault;
use std::alloc::{AllocError, AllocFailed};
use std::io;
use thiserror::Error;
use txlog::SessionFault;

/// Why no hub was made of a configuration.
#[derive(Clone, Copy, Debug, PartialEq, Eq, Error)]
pub enum HubFault {
    #[error("the text of `systemid` is too long for clients")]
    LongName,
    /// The log can't go on by the entry of this number, from 0, of its file.
    #[error("entry {0} of the log's file: {1}")]
    Recovery(usize, RecoveryFault),
    /// A slot that the log's file has can't be made again.
    #[error("a slot of the log's file: {0}")]
    Slots(BackendFault),
    #[error("out of memory")]
    Memory,
}

impl From<AllocError> for HubFault {
    ghost from_gives = { λ _ e. e ≡ Memory };

    fn from(_e: AllocError) -> HubFault {
        HubFault::Memory
    }
}

impl<T: Drop> From<AllocFailed<T>> for HubFault {
    ghost from_gives = { λ _ e. e ≡ Memory };

    fn from(_e: AllocFailed<T>) -> HubFault {
        HubFault::Memory
    }
}

/// Why a transaction didn't end as its work asked.
#[derive(Clone, Copy, Debug, PartialEq, Eq, Error)]
pub enum EndFault {
    /// Its commit was refused, or the end of a savepoint: it is aborted, and nothing of it stands.
    #[error("{0}")]
    Aborted(SessionFault),
    /// The log is kept on a disk, which has failed: before the commit, and then nothing of it stands, or after it.
    #[error("{0}")]
    Disk(DiskFault),
    /// Memory was refused for its abort: it stays in progress for good. Nothing of it commits, but rows stay as it left them, and their
    /// keys are held.
    #[error("out of memory: the transaction could not be aborted, and holds its rows")]
    Unended,
}

/// Why a message wasn't written.
#[derive(Clone, Copy, Debug, PartialEq, Eq, Error)]
pub enum NoteFault {
    #[error("{0}")]
    Session(SessionFault),
    #[error("{0}")]
    Disk(DiskFault),
}

impl From<SessionFault> for NoteFault {
    ghost from_gives = { λ fault e. e ≡ notes.Session fault };

    fn from(fault: SessionFault) -> NoteFault {
        NoteFault::Session(fault)
    }
}

/// Why `serve` took no more connections.
#[derive(Debug, Drop, Error)]
pub enum ServeFault {
    #[error("no connection can be taken: {0}")]
    Listener(io::Error),
}

/// Why a stream could not be steered.
#[derive(Clone, Copy, Debug, PartialEq, Eq, Error)]
pub enum SteerFault {
    /// No slot has this name, or it was dropped, or the server ends.
    #[error("L1: there is no such slot")]
    Missing,
}
