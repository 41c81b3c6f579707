//! From where on a log is put on its disk.

use shared_log::{LogName, LogReader};

/// A reader of the log, and how much of it the disk has.
#[derive(Drop)]
pub(crate) struct KeeperPlace<L: LogName> {
    pub reader: LogReader<L>,
    /// How many records, and up to which position.
    pub count: usize,
    pub end: u64,
}
