//! Why what was written isn't known to be on the disk.

use thiserror::Error;

#[derive(Clone, Copy, Debug, PartialEq, Eq, Error)]
pub enum DiskFault {
    /// The disk has failed before: nothing was written.
    #[error("the log's disk has failed")]
    Failed,
    /// It stands in the log, but it can't be said whether it is on the disk: that has failed since, or the server ends.
    #[error("the log's disk has failed, or its server ended: whether this is kept can't be said")]
    Unsynced,
}
