//! What a commit answers.

ghost use Rattle.std.specs.Prelude.{◌≡◌, true};
ghost use Rattle.shared_log.specs.SeenPrefixes.{settled_records};
ghost use Rattle.txlog.specs.Receipts.{has_commit};

use shared_log::LogName;
use std::marker::Model;

/// What a commit tells of its record. A reader whose position is `end` or more has read the transaction whole; one that learns
/// what was `told` has the record at its next fetch. It may go to other threads.
#[derive(Drop)]
pub struct Receipt<L: LogName> {
    told: shared_log::Receipt<L>,
    xid: u32,
}

impl<L: LogName> Model for Receipt<L> {
    ghost use Rattle.std.specs.Prelude.{◌≡◌, true};
    ghost use Rattle.shared_log.specs.SeenPrefixes.{settled_records};
    ghost use Rattle.txlog.specs.Receipts.{Committed, has_commit};

    ghost Value = { Committed };

    ghost view = { λ r. record {
      place = r.told.place;
      start = r.told.start;
      end = r.told.end;
      xid = r.xid;
    } };

    ghost invariant = { λ r. has_commit (settled_records r.told.front)
        (record { place = r.told.place; start = r.told.start; end = r.told.end; xid = r.xid })
        ≡ true };
}

impl<L: LogName> Receipt<L> {
    pub(crate) fn new(told: shared_log::Receipt<L>, xid: u32) -> Self
        requires { has_commit (settled_records told.front)
            (record { place = told.place; start = told.start; end = told.end; xid = xid })
            ≡ true }
        ensures { result
            ≡ record { place = told.place; start = told.start; end = told.end; xid = xid } }
    {
        Receipt { told, xid }
    }

    /// The record's index in the log.
    pub fn place(&self) -> usize
        ensures { result ≡ self.now.place }
    {
        self.told.place
    }

    /// The position where the record starts.
    pub fn start(&self) -> u64
        ensures { result ≡ self.now.start }
    {
        self.told.start
    }

    /// The position where it ends.
    pub fn end(&self) -> u64
        ensures { result ≡ self.now.end }
    {
        self.told.end
    }

    /// The xid of the transaction.
    pub fn xid(&self) -> u32
        ensures { result ≡ self.now.xid }
    {
        self.xid
    }

    /// What a reader learns. The Commit stands in the log that it then knows of.
    pub fn told(&self) -> &shared_log::Receipt<L>
        ensures { has_commit (settled_records result.now.front) self.now ≡ true }
    {
        &self.told
    }
}
