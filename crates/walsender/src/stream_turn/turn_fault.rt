//! Why a turn failed: U1 to U5.

ghost use Rattle.std.specs.Prelude.{◌≡◌};
ghost use Rattle.walsender.specs.Faults.{fault_of_fetch};
ghost use Rattle.walsender.specs.declared.stream_turn.turn_fault.TurnFault.TheVariants as faults;

use crate::fault::SendFault;
use shared_log::ReadFault;
use std::io;
use thiserror::Error;

/// Why a turn failed. Only at U2 was anything written.
#[derive(Debug, Drop, Error)]
pub enum TurnFault {
    /// The sender refused the records, after which the reader stands now.
    #[error("U1: {0}")]
    Sender(SendFault),
    /// The writer failed, or took no bytes.
    #[error("U2: the stream cannot be written: {0}")]
    Write(io::Error),
    /// No memory for what was to be fetched. The reader stays where it is.
    #[error("U3: out of memory")]
    Memory,
    /// The reader stays where it is, and has seen nothing more.
    #[error("U4: the log lets no reader in")]
    NoEntry,
    /// The reader stays where it is. Nobody meets it, as E1 of what was learnt.
    #[error("U4: the log lacks what was learnt of")]
    Stale,
    /// The reader stays where it is, before the records that lie in memory.
    #[error("U5: the log's records there have been removed")]
    Removed,
}

impl From<ReadFault> for TurnFault {
    ghost from_gives = { λ fault e. e ≡ fault_of_fetch fault };

    fn from(fault: ReadFault) -> TurnFault {
        match fault {
            ReadFault::NoEntry => TurnFault::NoEntry,
            ReadFault::Stale => TurnFault::Stale,
            ReadFault::Memory => TurnFault::Memory,
            ReadFault::Removed => TurnFault::Removed,
        }
    }
}

impl From<SendFault> for TurnFault {
    ghost from_gives = { λ fault e. e ≡ faults.Sender fault };

    fn from(fault: SendFault) -> TurnFault {
        TurnFault::Sender(fault)
    }
}

impl From<io::Error> for TurnFault {
    ghost from_gives = { λ error e. e ≡ faults.Write error };

    fn from(error: io::Error) -> TurnFault {
        TurnFault::Write(error)
    }
}
