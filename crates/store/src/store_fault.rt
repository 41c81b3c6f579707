//! Why a change of rows is refused.

ghost use Rattle.std.specs.Prelude.{◌≡◌};
ghost use Rattle.store.specs.declared.store_fault.StoreFault.TheVariants.{Memory};

use std::alloc::{AllocError, AllocFailed};
use thiserror::Error;

/// Why a store refused a change. A refused change leaves everything as it was.
#[derive(Clone, Copy, Debug, PartialEq, Eq, Error)]
pub enum StoreFault {
    #[error("there is no such table")]
    UnknownTable,
    #[error("the row does not fit the table")]
    RowShape,
    #[error("a row with this key exists")]
    DuplicateKey,
    #[error("there is no row with this key")]
    NoSuchRow,
    #[error("another transaction holds the key")]
    KeyHeld,
    #[error("the row is too large")]
    TooLarge,
    #[error("no message has this prefix")]
    BadPrefix,
    #[error("out of memory")]
    Memory,
}

impl From<AllocError> for StoreFault {
    ghost from_gives = { λ _ e. e ≡ Memory };

    fn from(_e: AllocError) -> StoreFault {
        StoreFault::Memory
    }
}

impl<T: Drop> From<AllocFailed<T>> for StoreFault {
    ghost from_gives = { λ _ e. e ≡ Memory };

    fn from(_e: AllocFailed<T>) -> StoreFault {
        StoreFault::Memory
    }
}
