//! Why a regrouping refuses a record.

ghost use Rattle.std.specs.Prelude.{◌≡◌};
ghost use Rattle.reorder.specs.declared.fault.ReorderFault.TheVariants.{Memory};

use std::alloc::{AllocError, AllocFailed};
use thiserror::Error;

/// Why a record was not taken.
#[derive(Clone, Copy, Debug, PartialEq, Eq, Error)]
pub enum ReorderFault {
    #[error("Q1: change arena is full")]
    Full,
    #[error("Q2: out of memory")]
    Memory,
    #[error("Q3: an earlier record was not taken")]
    Failed,
}

impl From<AllocError> for ReorderFault {
    ghost from_gives = { λ _ e. e ≡ Memory };

    fn from(_e: AllocError) -> ReorderFault {
        ReorderFault::Memory
    }
}

impl<T: Drop> From<AllocFailed<T>> for ReorderFault {
    ghost from_gives = { λ _ e. e ≡ Memory };

    fn from(_e: AllocFailed<T>) -> ReorderFault {
        ReorderFault::Memory
    }
}
