//! The xids of one transaction.

ghost use Rattle.std.specs.Prelude.{◌≡◌, ◌++◌, ◌∷◌, [], IfOk, OnOk};
ghost use Rattle.reorder.specs.Members.{xids_in};

use std::alloc::{AllocError, Global};
use std::marker::Model;

/// A transaction's own xid, and those of its subtransactions in the order in which they came.
#[derive(Drop)]
pub(crate) struct Members {
    xids: Xids,
}

/// Xids, of which most transactions have one.
#[derive(Drop)]
pub(crate) enum Xids {
    /// It takes no memory.
    One([u32; 1]),
    Several(Vec<u32>),
}

impl Model for Members {
    ghost use Rattle.std.specs.Prelude.{List, ℕ};
    ghost use Rattle.reorder.specs.Members.{xids_in};

    ghost Value = { List ℕ };

    ghost view = { λ m. xids_in m.xids };
}

impl Members {
    pub(crate) fn of(xid: u32) -> Members
        ensures { result ≡ xid ∷ [] }
    {
        Members {
            xids: Xids::One([xid]),
        }
    }

    /// Those of no transaction.
    pub(crate) fn none(alloc: Global) -> Members
        ensures { result ≡ [] }
    {
        Members {
            xids: Xids::Several(Vec::new(alloc)),
        }
    }

    pub(crate) fn as_slice(&self) -> &[u32]
        ensures { result.now ≡ self.now }
    {
        self.xids.as_slice()
    }

    pub(crate) fn push(&mut self, alloc: Global, xid: u32) -> Result<(), AllocError>
        ensures { OnOk result (self.new ≡ self.old ++ xid ∷ []) }
    {
        self.xids.push(alloc, xid)
    }
}

impl Xids {
    fn as_slice(&self) -> &[u32]
        ensures { result.now ≡ xids_in self.now }
    {
        match self {
            Xids::One(xid) => xid,
            Xids::Several(xids) => xids.as_slice(),
        }
    }

    fn push(&mut self, alloc: Global, xid: u32) -> Result<(), AllocError>
        ensures { OnOk result (xids_in self.new ≡ xids_in self.old ++ xid ∷ []) }
    {
        match self {
            Xids::One(own) => {
                let mut xids = Vec::new(alloc);
                xids.push(own[0])?;
                xids.push(xid)?;
                *self = Xids::Several(xids);
            }
            Xids::Several(xids) => xids.push(xid)?,
        }
        Ok(())
    }
}
