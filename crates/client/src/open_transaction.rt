//! A transaction of which the Commit hasn't come.

ghost use Rattle.std.specs.Prelude.{◌≡◌, [], OnErr, OnOk};
ghost use Rattle.client.specs.Subscriber.{transaction_of, with_change};

use pgoutput::{Begin, Commit, Logical, Published, PublishedChange};
use pqformat::Items;
use std::alloc::{AllocError, Global};
use std::marker::Model;

#[derive(Drop)]
pub(crate) struct OpenTransaction {
    begin: Begin,
    changes: Vec<PublishedChange>,
}

impl Model for OpenTransaction {
    ghost use Rattle.client.specs.Subscriber.{HalfTransaction};

    ghost Value = { HalfTransaction };

    ghost view = { λ h. record { begin = h.begin; changes = h.changes.items } };
}

impl OpenTransaction {
    pub(crate) fn new(alloc: Global, begin: Begin) -> Self
        ensures { result ≡ record { begin = begin; changes = [] } }
    {
        OpenTransaction {
            begin,
            changes: Vec::new(alloc),
        }
    }

    /// The position at which the commit record starts.
    pub(crate) fn position(&self) -> u64
        ensures { result ≡ self.now.begin.position }
    {
        self.begin.position
    }

    pub(crate) fn push(&mut self, position: u64, message: Logical) -> Result<(), AllocError>
        ensures ok { OnOk result (self.new ≡ with_change self.old position message) }
        ensures err { OnErr result (self.new ≡ self.old) }
    {
        let change = PublishedChange { position, message };
        Ok(self.changes.push(change)?)
    }

    /// The transaction, once it is committed.
    pub(crate) fn commit(self, commit: &Commit) -> Published
        ensures { result ≡ transaction_of self commit.now }
    {
        let OpenTransaction { begin, changes } = self;
        Published {
            is_note: false,
            start: begin.position,
            end: commit.end,
            time: begin.time,
            xid: begin.xid,
            changes: Items::new(changes),
        }
    }
}
