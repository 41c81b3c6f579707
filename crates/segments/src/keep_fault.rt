//! Why records of a log aren't written into a segment.

ghost use Rattle.std.specs.Prelude.{◌≡◌};
ghost use Rattle.segments.specs.declared.fault.SegmentFault.TheVariants.{Memory};
ghost use Rattle.segments.specs.declared.keep_fault.KeepFault.TheVariants.{Read, Segment};

use crate::fault::SegmentFault;
use shared_log::ReadFault;
use std::alloc::AllocError;
use thiserror::Error;

#[derive(Clone, Copy, Debug, PartialEq, Eq, Error)]
pub enum KeepFault {
    /// The log can't be read.
    #[error("{0}")]
    Read(ReadFault),
    /// The log has fewer records than the segment.
    #[error("the log has fewer records than its file")]
    Behind,
    /// What was read can't be written.
    #[error("{0}")]
    Segment(SegmentFault),
}

impl From<ReadFault> for KeepFault {
    ghost from_gives = { λ e fault. fault ≡ Read e };

    fn from(fault: ReadFault) -> Self {
        KeepFault::Read(fault)
    }
}

impl From<AllocError> for KeepFault {
    ghost from_gives = { λ _ fault. fault ≡ Segment Memory };

    fn from(_: AllocError) -> Self {
        KeepFault::Segment(SegmentFault::Memory)
    }
}

impl From<SegmentFault> for KeepFault {
    ghost from_gives = { λ e fault. fault ≡ Segment e };

    fn from(fault: SegmentFault) -> Self {
        KeepFault::Segment(fault)
    }
}
