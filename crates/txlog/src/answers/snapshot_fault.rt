//! Why a call on a snapshot is refused.

ghost use Rattle.std.specs.Prelude.{◌≡◌};
ghost use Rattle.txlog.specs.declared.answers.snapshot_fault.SnapshotFault.TheVariants.{Memory};

use std::alloc::AllocError;
use std::error::Error;
use std::fmt;

/// Why a call on a snapshot was refused. A refused call changes nothing.
#[derive(Clone, Copy, Debug, PartialEq, Eq)]
pub enum SnapshotFault {
    /// No open snapshot has this number.
    NotOpen,
    Memory,
}

impl fmt::Display for SnapshotFault {
    fn fmt<W: fmt::Write>(&self, f: &mut fmt::Formatter<W>) -> fmt::Result {
        f.write_str(match self {
            SnapshotFault::NotOpen => "the snapshot is not open",
            SnapshotFault::Memory => "out of memory",
        })
    }
}

impl Error for SnapshotFault {}

impl From<AllocError> for SnapshotFault {
    ghost from_gives = { λ _ e. e ≡ Memory };

    fn from(_e: AllocError) -> SnapshotFault {
        SnapshotFault::Memory
    }
}
