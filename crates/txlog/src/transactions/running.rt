//! One live transaction.

ghost use Rattle.std.specs.Prelude.{◌≡◌, ◌∷◌, ◌++◌, [], OnErr, OnOk, length, take};

use crate::transactions::savepoint::Savepoint;
use std::alloc::{AllocError, Global};
use std::marker::Model;

/// A live transaction: its xid, and its open savepoints, the outermost first.
#[derive(Drop)]
pub(crate) struct Running {
    xid: u32,
    savepoints: Vec<Savepoint>,
}

impl Model for Running {
    ghost use Rattle.txlog.specs.Publishing.{LiveTransaction};

    ghost Value = { LiveTransaction };

    ghost view = { λ r. record { xid = r.xid; savepoints = r.savepoints.items } };
}

impl Running {
    pub(crate) fn new(alloc: Global, xid: u32) -> Self
        ensures { result ≡ record { xid = xid; savepoints = [] } }
    {
        Running {
            xid,
            savepoints: Vec::new(alloc),
        }
    }

    pub(crate) fn xid(&self) -> u32
        ensures { result ≡ self.now.xid }
    {
        self.xid
    }

    pub(crate) fn savepoints(&self) -> &[Savepoint]
        ensures { result.now ≡ self.now.savepoints }
    {
        self.savepoints.as_slice()
    }

    /// The depth of the savepoint that has this xid; 0 where it is the transaction's.
    pub(crate) fn depth_of(&self, xid: u32) -> Option<u32> {
        if self.xid == xid {
            return Some(0);
        }
        let mut depth: u32 = 0;
        for savepoint in &self.savepoints {
            depth = depth.saturating_add(1);
            if savepoint.xid == xid {
                return Some(depth);
            }
        }
        None
    }

    pub(crate) fn push(&mut self, savepoint: Savepoint) -> Result<(), AllocError>
        ensures ok { OnOk result
            (self.new ≡ record self.old { savepoints = self.old.savepoints ++ savepoint ∷ [] }) }
        ensures err { OnErr result (self.new ≡ self.old) }
    {
        self.savepoints.push(savepoint)?;
        Ok(())
    }

    /// Keeps the first `depth` savepoints.
    pub(crate) fn truncate(&mut self, depth: usize)
        ensures { self.new ≡ record self.old { savepoints = take depth self.old.savepoints } }
    {
        self.savepoints.truncate(depth);
    }
}
