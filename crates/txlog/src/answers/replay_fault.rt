//! Why a publisher doesn't go on by a record of an earlier log.

ghost use Rattle.std.specs.Prelude.{◌≡◌};
ghost use Rattle.txlog.specs.declared.answers.replay_fault.ReplayFault.TheVariants.{Refused};
ghost use Rattle.txlog.specs.declared.answers.fault.SessionFault.TheVariants.{Memory};

use crate::answers::fault::SessionFault;
use std::alloc::{AllocError, AllocFailed};
use thiserror::Error;

#[derive(Clone, Copy, Debug, PartialEq, Eq, Error)]
pub enum ReplayFault {
    /// What the record tells is refused, as a session's call would be.
    #[error("{0}")]
    Refused(SessionFault),
    /// No transaction in progress goes on by this record.
    #[error("no transaction goes on so")]
    OutOfOrder,
    /// Another row stands there than the one that the record tells, or none.
    #[error("another row stands there")]
    OtherRow,
}

impl From<SessionFault> for ReplayFault {
    ghost from_gives = { λ e fault. fault ≡ Refused e };

    fn from(fault: SessionFault) -> Self {
        ReplayFault::Refused(fault)
    }
}

impl From<AllocError> for ReplayFault {
    ghost from_gives = { λ _ fault. fault ≡ Refused Memory };

    fn from(_: AllocError) -> Self {
        ReplayFault::Refused(SessionFault::Memory)
    }
}

impl<T: Drop> From<AllocFailed<T>> for ReplayFault {
    ghost from_gives = { λ _ fault. fault ≡ Refused Memory };

    fn from(_: AllocFailed<T>) -> Self {
        ReplayFault::Refused(SessionFault::Memory)
    }
}
