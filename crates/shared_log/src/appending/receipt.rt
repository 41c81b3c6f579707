//! What tells of a record.

ghost use Rattle.std.specs.Prelude.{◌≡◌, true};
ghost use Rattle.shared_log.specs.SeenPrefixes.{ends_confirmed};

use crate::histories::name::LogName;
use crate::histories::seen_prefix::SeenPrefix;

/// Where a record stands in the log. A reader that learns it sees the record at its next fetch. It may go to other threads.
#[derive(Drop)]
pub struct Receipt<L: LogName> {
    /// The record's index in the log.
    pub place: usize,
    /// The positions where the record starts and ends.
    pub start: u64,
    pub end: u64,
    pub(crate) front: SeenPrefix<L>,
    ghost ends: { ends_confirmed front ≡ true },
}
