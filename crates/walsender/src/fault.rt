//! Why a sender refuses a call.

ghost use Rattle.std.specs.Prelude.{◌≡◌};
ghost use Rattle.walsender.specs.declared.fault.SendFault.TheVariants.{Memory};

use std::alloc::{AllocError, AllocFailed};
use thiserror::Error;

/// Why a sender refused a call.
#[derive(Clone, Copy, Debug, PartialEq, Eq, Error)]
pub enum SendFault {
    #[error("G1: change arena is full")]
    ArenaFull,
    #[error("G2: out of memory")]
    Memory,
    #[error("G3: the sender has failed")]
    Failed,
    #[error("G4: the records do not follow what was read")]
    Gap,
}

impl From<AllocError> for SendFault {
    ghost from_gives = { λ _ e. e ≡ Memory };

    fn from(_e: AllocError) -> SendFault {
        SendFault::Memory
    }
}

impl<T: Drop> From<AllocFailed<T>> for SendFault {
    ghost from_gives = { λ _ e. e ≡ Memory };

    fn from(_e: AllocFailed<T>) -> SendFault {
        SendFault::Memory
    }
}
