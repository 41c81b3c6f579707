//! Why a segment isn't there, or isn't written.

ghost use Rattle.std.specs.Prelude.{◌≡◌};
ghost use Rattle.segments.specs.declared.fault.SegmentFault.TheVariants.{Memory};

use std::alloc::AllocError;
use thiserror::Error;

#[derive(Clone, Copy, Debug, PartialEq, Eq, Error)]
pub enum SegmentFault {
    #[error("out of memory")]
    Memory,
    /// Its file can't be read, written or put on the disk. What was synced stays.
    #[error("the file can't be read or written")]
    Disk,
    /// A write or a sync has failed before: only what was synced by then is sure to be there.
    #[error("an earlier write or sync has failed")]
    Failed,
    /// The body is longer than an entry's may be.
    #[error("the entry is too long")]
    TooLong,
    /// It doesn't begin as a segment does.
    #[error("the file is no segment")]
    NoSegment,
    /// It is of another version of the format.
    #[error("the file is of another version of the format")]
    Version,
    /// At this offset stands no entry, though more of the file was on the disk once.
    #[error("the file is damaged at byte {0}")]
    Damaged(usize),
}

impl From<AllocError> for SegmentFault {
    ghost from_gives = { λ _ fault. fault ≡ Memory };

    fn from(_: AllocError) -> Self {
        SegmentFault::Memory
    }
}
