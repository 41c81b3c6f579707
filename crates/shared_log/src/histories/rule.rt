//! What is true of the log that readers see, between any two steps of any threads.

use crate::histories::copy::LogCopy;
use crate::histories::name::LogName;
use crossbeam_utils::rule::{Outcome, Protocol};
use std::collections::LinkedList;
use std::marker::PhantomData;
use wal::Record;

/// What a reader or the writer has seen of the log, and where it began in memory. No value of it is made.
pub struct View {
    pub seen: LinkedList<Record>,
    pub edge: usize,
}

/// The rule of a log's readers and its writer.
pub struct LogProtocol<L> {
    of: PhantomData<L>,
}

impl<L: LogName> Protocol<LogCopy, View> for LogProtocol<L> {
    ghost use Rattle.shared_log.specs.SeenPrefixes.{shown_records};
    ghost use Rattle.shared_log.specs.Kept.{kept_in};
    ghost use Rattle.shared_log.specs.Sharing.{Keeps, newcomer};

    ghost holds = { λ c. Keeps L.book (shown_records c.mark.seen.log) c.edge
        (kept_in c.records.items) c.mark.seen.book };

    ghost first = { newcomer };
}

/// A step that sees the log whole.
pub(crate) struct Sees<L> {
    of: PhantomData<L>,
}

impl<L: LogName> Outcome<LogCopy, View> for Sees<L> {
    ghost use Rattle.shared_log.specs.SeenPrefixes.{shown_records};
    ghost use Rattle.shared_log.specs.Kept.{kept_in};
    ghost use Rattle.shared_log.specs.Sharing.{Saw};

    ghost then = { λ v before after w. Saw L.book v (shown_records after.mark.seen.log) after.edge
        (kept_in after.records.items) after.mark.seen.book w };
}
