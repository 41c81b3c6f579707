//! The faults of logical messages, O1 to O6.

ghost use Rattle.std.specs.Prelude.{◌≡◌};
ghost use Rattle.pgoutput.specs.declared.fault.PgoutputError.TheVariants.{Memory};

use std::alloc::{AllocError, AllocFailed};
use thiserror::Error;

/// Why no message was read.
#[derive(Clone, Copy, Debug, PartialEq, Eq, Error)]
pub enum PgoutputError {
    #[error("O1: the message ends inside a field")]
    Short,
    #[error("O2: no message has this kind byte")]
    UnknownKind,
    #[error("O3: a letter, a flag, a count or a length is none of its field")]
    BadMark,
    #[error("O4: a text is not UTF-8")]
    BadText,
    #[error("O5: bytes are left over behind the message")]
    Trailing,
    #[error("O6: out of memory")]
    Memory,
}

impl From<AllocError> for PgoutputError {
    ghost from_gives = { λ _ e. e ≡ Memory };

    fn from(_e: AllocError) -> PgoutputError {
        PgoutputError::Memory
    }
}

impl<T: Drop> From<AllocFailed<T>> for PgoutputError {
    ghost from_gives = { λ _ e. e ≡ Memory };

    fn from(_e: AllocFailed<T>) -> PgoutputError {
        PgoutputError::Memory
    }
}
