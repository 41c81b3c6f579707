//! A segment and the log that it is of.

ghost use Rattle.std.specs.Prelude.{◌≤◌, length};
ghost use Rattle.shared_log.specs.Readers.{seen_of};

use crate::segment::Segment;
use bytes::BytesMut;
use shared_log::{LogName, LogReader};
use sqlite_disk::Disk;

/// A segment, and a reader of the log that it is of.
#[derive(Drop)]
pub struct LogKeeper<D: Disk + Drop, L: LogName> {
    pub(crate) segment: Segment<D>,
    pub(crate) reader: LogReader<L>,
    /// Room for what tells a record.
    pub(crate) body: BytesMut,
    ghost within: { reader.place ≤ length (seen_of reader) },
}
