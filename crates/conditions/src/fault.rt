//! Why a text is no filter.

ghost use Rattle.std.specs.Prelude.{◌≡◌};
ghost use Rattle.conditions.specs.declared.fault.FilterFault.TheVariants.{Memory};

use std::alloc::{AllocError, AllocFailed};
use thiserror::Error;

/// Why a text is no filter of a table. Of several, the first in the order X1, X4, X5, X2, X3 counts.
#[derive(Clone, Copy, Debug, PartialEq, Eq, Error)]
pub enum FilterFault {
    #[error("X1: no condition is written so")]
    Syntax,
    #[error("X2: a column that the table doesn't have")]
    UnknownColumn,
    #[error("X3: values of kinds that don't go together")]
    TypeMismatch,
    #[error("X4: a number of over 64 bits")]
    NumberRange,
    #[error("X5: over 64 levels deep")]
    TooDeep,
    #[error("X6: out of memory")]
    Memory,
}

impl From<AllocError> for FilterFault {
    ghost from_gives = { λ _ e. e ≡ Memory };

    fn from(_e: AllocError) -> FilterFault {
        FilterFault::Memory
    }
}

impl<T: Drop> From<AllocFailed<T>> for FilterFault {
    ghost from_gives = { λ _ e. e ≡ Memory };

    fn from(_e: AllocFailed<T>) -> FilterFault {
        FilterFault::Memory
    }
}
