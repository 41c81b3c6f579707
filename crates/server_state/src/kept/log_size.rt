//! How long the log is, told while a transaction holds the publisher.

use crate::server_state::ServerState;
use shared_log::LogName;
use slots::SlotName;
use std::sync::{MutexGuard, Wait};
use txlog::Publisher;

/// The log at one moment.
#[derive(Clone, Copy)]
pub(crate) struct LogSize {
    /// The position where it ends.
    pub end: u64,
    /// How many records it has had, and how many of them are kept.
    pub count: usize,
    pub kept: usize,
}

impl LogSize {
    pub fn of<L: LogName>(publisher: &Publisher<L>) -> Self {
        LogSize {
            end: publisher.end(),
            count: publisher.count(),
            kept: publisher.kept(),
        }
    }
}

impl<L: LogName + SlotName> ServerState<L> {
    /// Lets the publisher go. From here on its log is told as it is now.
    pub(crate) fn let_go<R: Wait>(&self, rt: &R, publisher: MutexGuard<'_, Publisher<L>>) {
        let mut size = self.log_size.lock(rt);
        *size = LogSize::of(&*publisher);
        drop(size);
        MutexGuard::unlock(publisher);
    }

    /// Where the log ends, but for what a transaction in progress by `Hub::transaction` has written: that one isn't waited for. Of one
    /// that is kept on a disk, where it ends there.
    pub fn end_of_log<R: Wait>(&self, rt: &R) -> u64 {
        let end = self.log_size.lock(rt).end;
        self.end_on_disk(rt, end)
    }
}
