//! Why a log doesn't go on by an entry.

ghost use Rattle.std.specs.Prelude.{◌≡◌};
ghost use Rattle.segments.specs.declared.recovery_fault.RecoveryFault.TheVariants.{Record, Replay};

use crate::records::fault::RecordFault;
use thiserror::Error;
use txlog::ReplayFault;

#[derive(Clone, Copy, Debug, PartialEq, Eq, Error)]
pub enum RecoveryFault {
    /// It tells no record.
    #[error("{0}")]
    Record(RecordFault),
    /// Its record can't come next.
    #[error("{0}")]
    Replay(ReplayFault),
}

impl From<RecordFault> for RecoveryFault {
    ghost from_gives = { λ e fault. fault ≡ Record e };

    fn from(fault: RecordFault) -> Self {
        RecoveryFault::Record(fault)
    }
}

impl From<ReplayFault> for RecoveryFault {
    ghost from_gives = { λ e fault. fault ≡ Replay e };

    fn from(fault: ReplayFault) -> Self {
        RecoveryFault::Replay(fault)
    }
}
