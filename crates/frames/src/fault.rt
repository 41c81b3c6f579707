//! The faults of frames, F1 to F7.

ghost use Rattle.std.specs.Prelude.{◌≡◌};
ghost use Rattle.frames.specs.declared.fault.FrameFault.TheVariants.{Memory};

use std::alloc::{AllocError, AllocFailed};
use thiserror::Error;

/// Why no frame was read.
#[derive(Clone, Copy, Debug, PartialEq, Eq, Error)]
pub enum FrameFault {
    #[error("F1: the length of the frame is too small")]
    BadLength,
    #[error("F2: the protocol version is not supported")]
    BadVersion,
    #[error("F3: no frame has this type byte")]
    UnknownType,
    #[error("F4: the body is not one of its frame")]
    BadBody,
    #[error("F5: a text of the body is not UTF-8")]
    NotUtf8,
    #[error("F6: the frame is longer than its limit")]
    TooLong,
    #[error("F7: out of memory")]
    Memory,
}

impl From<AllocError> for FrameFault {
    ghost from_gives = { λ _ e. e ≡ Memory };

    fn from(_e: AllocError) -> FrameFault {
        FrameFault::Memory
    }
}

impl<T: Drop> From<AllocFailed<T>> for FrameFault {
    ghost from_gives = { λ _ e. e ≡ Memory };

    fn from(_e: AllocFailed<T>) -> FrameFault {
        FrameFault::Memory
    }
}
