//! The faults of a connection.

ghost use Rattle.std.specs.Prelude.{◌≡◌};
ghost use Rattle.server.specs.declared.fault.ConnFault.TheVariants.{Memory};

use std::alloc::{AllocError, AllocFailed};
use thiserror::Error;

/// Why a connection takes no more.
#[derive(Clone, Copy, Debug, PartialEq, Eq, Error)]
pub enum ConnFault {
    #[error("H1: out of memory")]
    Memory,
    #[error("H2: the connection is closed")]
    Closed,
}

impl From<AllocError> for ConnFault {
    ghost from_gives = { λ _ e. e ≡ Memory };

    fn from(_e: AllocError) -> ConnFault {
        ConnFault::Memory
    }
}

impl<T: Drop> From<AllocFailed<T>> for ConnFault {
    ghost from_gives = { λ _ e. e ≡ Memory };

    fn from(_e: AllocFailed<T>) -> ConnFault {
        ConnFault::Memory
    }
}
