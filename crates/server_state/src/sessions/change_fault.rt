//! Why a transaction doesn't change what it is told to.

ghost use Rattle.std.specs.Prelude.{◌≡◌};
ghost use Rattle.server_state.specs.declared.sessions.change_fault.ChangeFault.TheVariants.{Session};
ghost use Rattle.txlog.specs.declared.answers.fault.SessionFault.TheVariants.{Memory};

use named_rows::FieldFault;
use std::alloc::{AllocError, AllocFailed};
use thiserror::Error;
use txlog::SessionFault;

/// Why a change was refused. It changes nothing, and the transaction goes on.
#[derive(Clone, Copy, Debug, PartialEq, Eq, Error)]
pub enum ChangeFault {
    #[error("the key: {0}")]
    Key(FieldFault),
    #[error("{0}")]
    Field(FieldFault),
    #[error("{0}")]
    Session(SessionFault),
}

impl From<SessionFault> for ChangeFault {
    ghost from_gives = { λ fault e. e ≡ Session fault };

    fn from(fault: SessionFault) -> ChangeFault {
        ChangeFault::Session(fault)
    }
}

impl From<AllocError> for ChangeFault {
    ghost from_gives = { λ _ e. e ≡ Session Memory };

    fn from(_e: AllocError) -> ChangeFault {
        ChangeFault::Session(SessionFault::Memory)
    }
}

impl<T: Drop> From<AllocFailed<T>> for ChangeFault {
    ghost from_gives = { λ _ e. e ≡ Session Memory };

    fn from(_e: AllocFailed<T>) -> ChangeFault {
        ChangeFault::Session(SessionFault::Memory)
    }
}
