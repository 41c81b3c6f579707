//! Snapshots: the rows that ended transactions have left at one moment, to read while others go on changing them.

ghost use Rattle.std.specs.Prelude.{◌≡◌, ◌==◌, ◌-◌, ◌≤◌, [], ℕ, List, IfOk, OnErr, OnOk, length};
ghost use Rattle.store.specs.History.{Made};
ghost use Rattle.store.specs.Keeping.{Keeps};
ghost use Rattle.store.specs.Snapshots.{AreCommitted, AreOnce, Gives, standing_of, standing_within};

use crate::places::slots::Slots;
use crate::store::Store;
use std::alloc::{AllocError, Global};
use std::marker::Model;
use tables::Row;

/// The rows of a store as ended transactions had left them when the snapshot was taken. It is read by scans, each of one
/// table, as often as one likes. Contracts see its rows, those that the scan in progress has still to give, and at how many
/// places it has still to look.
#[derive(Drop)]
pub struct Snapshot {
    slots: Slots,
    oid: u32,
    next: usize,
}

impl Model for Snapshot {
    ghost use Rattle.std.specs.Prelude.{◌≤◌, ◌-◌, drop, length};
    ghost use Rattle.store.specs.Snapshots.{SnapshotState, standing_of, standing_within};

    ghost Value = { SnapshotState };

    ghost view = { λ s. record {
      rows = standing_of s.slots;
      left = standing_within s.oid (standing_of (drop s.next s.slots));
      ahead = length s.slots - s.next;
    } };

    ghost invariant = { λ s. s.next ≤ length s.slots };
}

impl Snapshot {
    /// One that no scan reads.
    fn new(slots: Slots) -> Self
        ensures rows { result.rows ≡ standing_of slots }
        ensures once { AreOnce slots }
        ensures left { result.left ≡ [] }
        ensures ahead { result.ahead ≡ 0 }
    {
        let next = slots.len();
        Snapshot {
            slots,
            oid: 0,
            next,
        }
    }

    /// Begins a scan of one table, of which `read` gives the rows. The one in progress is over.
    pub fn scan(&mut self, oid: u32)
        ensures rows { self.new.rows ≡ self.old.rows }
        ensures left { self.new.left ≡ standing_within oid self.old.rows }
    {
        self.oid = oid;
        self.next = 0;
    }

    /// Looks at the next places, at most so many, and gives copies of the scanned table's rows there. Without memory nothing
    /// changes, and the call may be made again.
    pub fn read(&mut self, alloc: Global, most: usize) -> Result<Vec<Row>, AllocError>
        ensures ok { IfOk result (λ rows. Gives self.old.left rows.items self.new.left) }
        ensures few { IfOk result (λ rows. length rows.items ≤ most) }
        ensures ahead { OnOk result (self.new.ahead ≡ self.old.ahead - most) }
        ensures rows { self.new.rows ≡ self.old.rows }
        ensures err { OnErr result (self.new ≡ self.old) }
    {
        let end = self.next + most.min(self.slots.len() - self.next);
        let rows = self.slots.rows_between(alloc, self.oid, self.next, end)?;
        self.next = end;
        Ok(rows)
    }

    /// Whether the scan is at its end: it has no row to give.
    pub fn is_read(&self) -> bool
        ensures ahead { result ≡ (self.now.ahead == 0) }
        ensures left { self.now.ahead ≡ 0 → self.now.left ≡ [] }
    {
        self.next == self.slots.len()
    }
}

impl Store {
    /// A snapshot of the rows that no transaction in progress has a part in.
    pub fn snapshot(&self) -> Result<Snapshot, AllocError>
        ensures rows { IfOk result
            (λ s. (history : List Made) → Keeps self.now history →
            AreCommitted self.now.tables history s.rows) }
        ensures left { IfOk result (λ s. (s.left ≡ []) × (s.ahead ≡ 0)) }
    {
        let mut slots = self.slots.copy(self.alloc)?;
        self.journals.undo_all(self.alloc, &mut slots)?;
        Ok(Snapshot::new(slots))
    }
}
