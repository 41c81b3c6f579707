//! What commits and notes tell streams.

ghost use Rattle.std.specs.Prelude.{◌≡◌, Some, None, max};
ghost use Rattle.server_state.specs.Notices.{greatest, notice_end};
ghost use Rattle.shared_log.specs.Readers.{seen_of};
ghost use mathlib.Core.List.{IsPrefix};

use shared_log::{LogName, LogReader};
use std::mem;
use txlog::Receipt;

/// The receipt of the greatest place among the commits, and the greatest end among the notes.
#[derive(Drop)]
pub struct CommitNotice<L: LogName> {
    latest: Option<Receipt<L>>,
    /// 0 before the first note.
    noted: u64,
}

impl<L: LogName> CommitNotice<L> {
    /// No commit has been, and no note.
    pub fn new() -> Self
        ensures { result ≡ record { latest = None; noted = 0 } }
    {
        CommitNotice {
            latest: None,
            noted: 0,
        }
    }

    /// A commit has this receipt; the one of the greatest place stays.
    pub fn publish(&mut self, receipt: Receipt<L>)
        ensures { self.new ≡ record self.old { latest = Some (greatest self.old.latest receipt) } }
    {
        let before = mem::replace(&mut self.latest, None);
        self.latest = Some(later_of(before, receipt));
    }

    /// A note ends there; the greatest end stays.
    pub fn note(&mut self, end: u64)
        ensures { self.new ≡ record self.old { noted = max self.old.noted end } }
    {
        self.noted = self.noted.max(end);
    }

    /// Where the log's last commit or note ends that it knows of; 0 before the first.
    pub fn end(&self) -> u64
        ensures { result ≡ max (notice_end self.now.latest) self.now.noted }
    {
        match &self.latest {
            Some(latest) => latest.end().max(self.noted),
            None => self.noted,
        }
    }

    /// Tells a reader of that commit: its next fetch sees it. Of notes there is nothing to be told: whoever fetches after one sees
    /// it.
    pub fn tell(&self, reader: &mut LogReader<L>)
        ensures kept { IsPrefix reader.old.told reader.new.told }
        ensures same { (seen_of reader.new ≡ seen_of reader.old)
            × (reader.new.place ≡ reader.old.place) }
    {
        if let Some(latest) = &self.latest {
            reader.learn(latest.told());
        }
    }
}

fn later_of<L: LogName>(before: Option<Receipt<L>>, receipt: Receipt<L>) -> Receipt<L>
    ensures { result ≡ greatest before receipt }
{
    match before {
        Some(before) => {
            if before.place() < receipt.place() {
                receipt
            } else {
                before
            }
        }
        None => receipt,
    }
}
