//! Who waits until what it did is on the disk.

ghost use Rattle.std.specs.Prelude.{◌≤◌};

use crate::disk::disk_fault::DiskFault;
use crate::server_state::ServerState;
use server::BackendFault;
use shared_log::LogName;
use slots::SlotName;
use std::sync::Wait;

impl<L: LogName + SlotName> ServerState<L> {
    /// How many records of the log streams may have read: all, or those that are on the disk where it is kept.
    pub fn readable(&self) -> usize {
        match &self.durability {
            Some(durability) => durability.readable(),
            None => usize::MAX,
        }
    }

    /// Why nothing may be written, if nothing may: the disk has failed.
    pub fn disk_fault<R: Wait>(&self, rt: &R) -> Option<DiskFault> {
        match &self.durability {
            Some(durability) => {
                if durability.look(rt).has_failed {
                    Some(DiskFault::Failed)
                } else {
                    None
                }
            }
            None => None,
        }
    }

    /// Waits until the log is on the disk up to this position, where it is kept and commits wait. It answers why that can't be said.
    pub(crate) fn await_kept<R: Wait>(&self, rt: &R, end: u64) -> Option<DiskFault> {
        if !self.settings.synchronous_commit {
            return None;
        }
        self.await_disk(rt, end)
    }

    /// The same, whether commits wait or not.
    pub(crate) fn await_disk<R: Wait>(&self, rt: &R, end: u64) -> Option<DiskFault> {
        match &self.durability {
            Some(durability) => {
                if durability.await_end(rt, end) {
                    None
                } else {
                    Some(DiskFault::Unsynced)
                }
            }
            None => None,
        }
    }

    /// Waits until all slots are on the disk as they stand, where the log is kept. `NotKept` (L14) where they don't come there.
    pub(crate) fn await_slots<R: Wait>(&self, rt: &R) -> Result<(), BackendFault> {
        match &self.durability {
            Some(durability) => {
                if durability.await_all(rt) {
                    Ok(())
                } else {
                    Err(BackendFault::NotKept)
                }
            }
            None => Ok(()),
        }
    }

    /// Refuses what would change slots where the disk has failed: `NotKept` (L14).
    pub(crate) fn judge_disk<R: Wait>(&self, rt: &R) -> Result<(), BackendFault> {
        match self.disk_fault(rt) {
            Some(_) => Err(BackendFault::NotKept),
            None => Ok(()),
        }
    }

    /// Where the log ends on the disk, of one that ends there; there, where it isn't kept.
    pub(crate) fn end_on_disk<R: Wait>(&self, rt: &R, end: u64) -> u64
        ensures { result ≤ end }
    {
        match &self.durability {
            Some(durability) => durability.look(rt).end.min(end),
            None => end,
        }
    }

    /// Puts on the disk what there is, where it is kept.
    pub fn settle<R: Wait>(&self, rt: &R) {
        let end = self.log_size.lock(rt).end;
        let _ = self.await_disk(rt, end);
    }
}
