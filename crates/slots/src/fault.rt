//! The faults of slots, L1 to L5.

ghost use Rattle.std.specs.Prelude.{◌≡◌};
ghost use Rattle.slots.specs.Codes.{slot_code};
ghost use Rattle.slots.specs.declared.fault.SlotFault.TheVariants.{Memory};

use std::alloc::{AllocError, AllocFailed};
use thiserror::Error;

/// Why a slot, or its name, was refused. What was refused changed nothing.
#[derive(Clone, Copy, Debug, PartialEq, Eq, Error)]
pub enum SlotFault {
    #[error("L1: slot does not exist")]
    Missing,
    #[error("L2: slot is in use")]
    InUse,
    #[error("L3: slot already exists")]
    Exists,
    #[error("L4: no slot place is left")]
    NoPlace,
    #[error("L5: out of memory")]
    Memory,
}

impl SlotFault {
    /// The code by which it is told.
    pub fn code(&self) -> &'static str
        ensures { result.now ≡ slot_code self.now }
    {
        match self {
            SlotFault::Missing => "L1",
            SlotFault::InUse => "L2",
            SlotFault::Exists => "L3",
            SlotFault::NoPlace => "L4",
            SlotFault::Memory => "L5",
        }
    }
}

impl From<AllocError> for SlotFault {
    ghost from_gives = { λ _ e. e ≡ Memory };

    fn from(_e: AllocError) -> SlotFault {
        SlotFault::Memory
    }
}

impl<T: Drop> From<AllocFailed<T>> for SlotFault {
    ghost from_gives = { λ _ e. e ≡ Memory };

    fn from(_e: AllocFailed<T>) -> SlotFault {
        SlotFault::Memory
    }
}
