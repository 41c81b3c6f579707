//! A session's hold on its transaction.

ghost use Rattle.std.specs.Prelude.{◌≡◌};

use std::marker::Model;

/// A session's hold on a transaction, from `Publisher::begin`. It can't be copied or dropped: `commit` and `abort` end the
/// transaction, and give it back where they are refused; `leave` lets it live on. Contracts see the transaction's xid.
pub struct Tx {
    xid: u32,
}

impl Model for Tx {
    ghost use Rattle.std.specs.Prelude.{ℕ};

    ghost Value = { ℕ };

    ghost view = { λ t. t.xid };
}

impl Tx {
    pub(crate) fn new(xid: u32) -> Self
        ensures { result ≡ xid }
    {
        Tx { xid }
    }

    pub(crate) fn xid(&self) -> u32
        ensures { result ≡ self.now }
    {
        self.xid
    }

    pub(crate) fn spend(self) {
        let Tx { xid: _ } = self;
    }
}
