//! The transactions that are live.

ghost use Rattle.std.specs.Prelude.{◌≡◌, ◌==◌, ◌∷◌, ◌++◌, [], ◌<◌, IfSome, MatchOption, OnErr, OnOk, length, position, slice_index, take};
ghost use Rattle.wal.specs.Log.{last_of};
ghost use Rattle.txlog.specs.Replaying.{IsOldest};
ghost use Rattle.txlog.specs.Publishing.{is_live, savepoints_of, innermost, with_savepoints, without, xids};

use crate::transactions::running::Running;
use crate::transactions::savepoint::Savepoint;
use std::alloc::{AllocError, Global};
use std::marker::Model;

/// The live transactions in the order of their xids.
#[derive(Drop)]
pub(crate) struct Live {
    running: Vec<Running>,
}

impl Model for Live {
    ghost use Rattle.std.specs.Prelude.{List};
    ghost use Rattle.txlog.specs.Publishing.{LiveTransaction};

    ghost Value = { List LiveTransaction };

    ghost view = { λ l. l.running.items };
}

impl Live {
    pub(crate) fn new(alloc: Global) -> Self
        ensures { result ≡ [] }
    {
        Live {
            running: Vec::new(alloc),
        }
    }

    pub(crate) fn allocator(&self) -> Global {
        *self.running.allocator()
    }

    pub(crate) fn len(&self) -> usize
        ensures { result ≡ length self.now }
    {
        self.running.len()
    }

    pub(crate) fn contains(&self, xid: u32) -> bool
        ensures { result ≡ is_live xid self.now }
    {
        self.running.iter().any(|running| running.xid() == xid)
    }

    pub(crate) fn savepoints(&self, xid: u32) -> &[Savepoint]
        ensures { result.now ≡ savepoints_of xid self.now }
    {
        for running in &self.running {
            if running.xid() == xid {
                return running.savepoints();
            }
        }
        &[]
    }

    /// The innermost open savepoint of a transaction, or the transaction.
    pub(crate) fn innermost(&self, xid: u32) -> u32
        ensures { result ≡ innermost xid self.now }
    {
        last_or(xid, self.savepoints(xid))
    }

    pub(crate) fn push(&mut self, xid: u32) -> Result<(), AllocError>
        ensures ok { OnOk result
            (self.new ≡ self.old ++ record { xid = xid; savepoints = [] } ∷ []) }
        ensures err { OnErr result (self.new ≡ self.old) }
    {
        let alloc = *self.running.allocator();
        self.running.push(Running::new(alloc, xid))?;
        Ok(())
    }

    pub(crate) fn remove(&mut self, xid: u32)
        ensures { self.new ≡ without xid self.old }
    {
        self.running.retain(|running| running.xid() != xid);
    }

    /// The oldest one's xid.
    pub(crate) fn first(&self) -> Option<u32>
        ensures { MatchOption result (self.now ≡ []) (IsOldest self.now) }
    {
        Some(self.running.as_slice().first()?.xid())
    }

    fn place_of(&self, xid: u32) -> Option<usize>
        ensures value { result ≡ position (λ o. o.xid == xid) self.now }
        ensures within { IfSome result (λ place. place < length self.now) }
    {
        let mut running = self.running.iter();
        running.position(|running| running.xid() == xid)
    }

    pub(crate) fn push_savepoint(
        &mut self,
        xid: u32,
        savepoint: Savepoint,
    ) -> Result<(), AllocError>
        ensures ok { OnOk result
            (self.new
            ≡ with_savepoints xid (savepoints_of xid self.old ++ savepoint ∷ []) self.old) }
        ensures err { OnErr result (self.new ≡ self.old) }
    {
        match self.place_of(xid) {
            Some(place) => {
                let running = &mut self.running[place];
                running.push(savepoint)?;
                Ok(())
            }
            None => Ok(()),
        }
    }

    /// The transaction that has this xid, or a savepoint of it, and the savepoint's depth, 0 for the transaction.
    pub(crate) fn holder(&self, xid: u32) -> Option<(u32, u32)> {
        for running in &self.running {
            if let Some(depth) = running.depth_of(xid) {
                return Some((running.xid(), depth));
            }
        }
        None
    }

    /// Keeps the first `depth` savepoints of a transaction.
    pub(crate) fn truncate_savepoints(&mut self, xid: u32, depth: usize)
        ensures { self.new
            ≡ with_savepoints xid (take depth (savepoints_of xid self.old)) self.old }
    {
        if let Some(place) = self.place_of(xid) {
            let running = &mut self.running[place];
            running.truncate(depth);
        }
    }
}

fn last_or(xid: u32, savepoints: &[Savepoint]) -> u32
    ensures { result ≡ last_of xid (xids savepoints.now) }
{
    match savepoints {
        [] => xid,
        [.., last] => last.xid,
    }
}
