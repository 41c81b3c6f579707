//! Why fields make no row.

ghost use Rattle.std.specs.Prelude.{◌≡◌};
ghost use Rattle.named_rows.specs.declared.fault.FieldFault.TheVariants.{Memory};

use std::alloc::{AllocError, AllocFailed};
use thiserror::Error;

/// Why fields make no row of a table. A place is the number of a field, counted from 0.
#[derive(Clone, Copy, Debug, PartialEq, Eq, Error)]
pub enum FieldFault {
    #[error("field {0}: the table has no column of this name, or the key doesn't have it")]
    UnknownColumn(usize),
    #[error("field {0}: its column has another type, or belongs to the key and takes no null")]
    WrongKind(usize),
    #[error("field {0}: an earlier one has the same name")]
    Repeated(usize),
    #[error("out of memory")]
    Memory,
}

impl From<AllocError> for FieldFault {
    ghost from_gives = { λ _ e. e ≡ Memory };

    fn from(_e: AllocError) -> FieldFault {
        FieldFault::Memory
    }
}

impl<T: Drop> From<AllocFailed<T>> for FieldFault {
    ghost from_gives = { λ _ e. e ≡ Memory };

    fn from(_e: AllocFailed<T>) -> FieldFault {
        FieldFault::Memory
    }
}
