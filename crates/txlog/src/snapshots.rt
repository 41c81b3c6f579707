//! The snapshots that are open over a publisher's rows, and the session's calls on them.

ghost use Rattle.std.specs.Prelude.{◌≡◌, ◌==◌, ◌∷◌, ◌++◌, [], ◌<◌, IfErr, IfOk, IfSome, None, OnErr, OnOk, length, position};
ghost use Rattle.txlog.specs.Invariants.{IsPublisher};
ghost use Rattle.txlog.specs.Publishing.{with_snapshots};
ghost use Rattle.txlog.specs.Rows.{history_of};
ghost use Rattle.txlog.specs.Snapshots.{IsRefusedBy, Opens, Reads, Scans, no_snapshots, snapshot_of, with_opened, without_snapshot};

use crate::answers::snapshot_fault::SnapshotFault;
use crate::publisher::Publisher;
use shared_log::LogName;
use std::alloc::{AllocError, Global};
use std::marker::Model;
use store::Snapshot;
use tables::Row;

/// Some of a table's rows, as a snapshot has them, and whether they are the last ones of the scan.
#[derive(Drop)]
pub struct Piece {
    pub rows: Vec<Row>,
    pub is_last: bool,
}

/// An open snapshot, under its number.
#[derive(Drop)]
pub(crate) struct OpenSnapshot {
    pub(crate) id: u64,
    pub(crate) snapshot: Snapshot,
}

/// The open snapshots, and how many have been opened so far.
#[derive(Drop)]
pub(crate) struct Snapshots {
    count: u64,
    opened: Vec<OpenSnapshot>,
}

impl Model for Snapshots {
    ghost use Rattle.txlog.specs.Snapshots.{Snapshots as Kept};

    ghost Value = { Kept };

    ghost view = { λ s. record { count = s.count; opened = s.opened.items } };
}

impl Snapshots {
    pub(crate) fn new(alloc: Global) -> Self
        ensures { result ≡ no_snapshots }
    {
        Snapshots {
            count: 0,
            opened: Vec::new(alloc),
        }
    }

    fn place_of(&self, id: u64) -> Option<usize>
        ensures value { result ≡ position (λ o. o.id == id) self.now.opened }
        ensures within { IfSome result (λ place. place < length self.now.opened) }
    {
        let mut opened = self.opened.iter();
        opened.position(|one| one.id == id)
    }

    /// Adds a snapshot under the next number. After 2⁶⁴ − 1 of them there is no memory for more.
    fn add(&mut self, snapshot: Snapshot) -> Result<u64, AllocError>
        ensures id { IfOk result (λ id. id ≡ self.old.count) }
        ensures ok { OnOk result (self.new ≡ with_opened snapshot self.old) }
        ensures err { OnErr result (self.new ≡ self.old) }
    {
        let id = self.count;
        let Some(count) = id.checked_add(1) else {
            return Err(AllocError);
        };
        self.opened.push(OpenSnapshot { id, snapshot })?;
        self.count = count;
        Ok(id)
    }

    fn scan(&mut self, id: u64, oid: u32) -> Result<(), SnapshotFault>
        ensures ok { OnOk result (Scans id oid self.old self.new) }
        ensures err { OnErr result (self.new ≡ self.old) }
        ensures refused { IfErr result
            (λ fault. (fault ≡ SnapshotFault.NotOpen) × (snapshot_of id self.old.opened ≡ None)) }
    {
        match self.place_of(id) {
            Some(place) => {
                let one = &mut self.opened[place];
                one.snapshot.scan(oid);
                Ok(())
            }
            None => Err(SnapshotFault::NotOpen),
        }
    }

    fn read(&mut self, alloc: Global, id: u64, most: usize) -> Result<Piece, SnapshotFault>
        ensures ok { IfOk result
            (λ piece. Reads id most piece.rows.items piece.is_last self.old self.new) }
        ensures err { OnErr result (self.new ≡ self.old) }
        ensures refused { IfErr result (IsRefusedBy (snapshot_of id self.old.opened)) }
    {
        match self.place_of(id) {
            Some(place) => {
                let one = &mut self.opened[place];
                let rows = one.snapshot.read(alloc, most)?;
                let is_last = one.snapshot.is_read();
                Ok(Piece { rows, is_last })
            }
            None => Err(SnapshotFault::NotOpen),
        }
    }

    fn close(&mut self, id: u64) -> Result<(), SnapshotFault>
        ensures ok { OnOk result (self.new ≡ without_snapshot id self.old) }
        ensures err { OnErr result (self.new ≡ self.old) }
        ensures refused { IfErr result
            (λ fault. (fault ≡ SnapshotFault.NotOpen) × (snapshot_of id self.old.opened ≡ None)) }
    {
        match self.place_of(id) {
            Some(_) => {
                self.opened.retain(|one| one.id != id);
                Ok(())
            }
            None => Err(SnapshotFault::NotOpen),
        }
    }
}

impl<L: LogName> Publisher<L> {
    /// Opens a snapshot of the committed rows, and answers its number, which no other one gets. It copies them: memory and time
    /// go with the rows of all tables. Its rows stay what they are until `close_snapshot`, whatever sessions do. Only `Memory`
    /// refuses it.
    pub fn open_snapshot(&mut self) -> Result<u64, SnapshotFault>
        ensures ok { IfOk result
            (λ id. Opens self.old.tables (history_of self.old.log) id self.old.snapshots
            self.new.snapshots) }
        ensures rest { self.new ≡ with_snapshots self.new.snapshots self.old }
        ensures err { OnErr result (self.new ≡ self.old) }
        ensures refused { IfErr result (λ fault. fault ≡ SnapshotFault.Memory) }
        ensures publisher { IsPublisher self.new }
    {
        let snapshot = self.store.snapshot()?;
        Ok(self.snapshots.add(snapshot)?)
    }

    /// Begins a scan of one table in a snapshot, of which `read_snapshot` gives the rows. A table may be scanned more than once,
    /// and one after another. `NotOpen` refuses it.
    pub fn scan_snapshot(&mut self, id: u64, oid: u32) -> Result<(), SnapshotFault>
        ensures ok { OnOk result (Scans id oid self.old.snapshots self.new.snapshots) }
        ensures rest { self.new ≡ with_snapshots self.new.snapshots self.old }
        ensures err { OnErr result (self.new ≡ self.old) }
        ensures refused { IfErr result
            (λ fault. (fault ≡ SnapshotFault.NotOpen)
            × (snapshot_of id self.old.snapshots.opened ≡ None)) }
        ensures publisher { IsPublisher self.new }
    {
        self.snapshots.scan(id, oid)
    }

    /// Looks at the next places of the scan, at most so many, and gives copies of the table's rows there. After the last piece
    /// none is left. Refused in this order: `NotOpen`, `Memory`, after which the call may be made again.
    pub fn read_snapshot(&mut self, id: u64, most: usize) -> Result<Piece, SnapshotFault>
        ensures ok { IfOk result
            (λ piece. Reads id most piece.rows.items piece.is_last self.old.snapshots
            self.new.snapshots) }
        ensures rest { self.new ≡ with_snapshots self.new.snapshots self.old }
        ensures err { OnErr result (self.new ≡ self.old) }
        ensures refused { IfErr result (IsRefusedBy (snapshot_of id self.old.snapshots.opened)) }
        ensures publisher { IsPublisher self.new }
    {
        let alloc = self.live.allocator();
        self.snapshots.read(alloc, id, most)
    }

    /// Lets a snapshot go, with its rows. `NotOpen` refuses it.
    pub fn close_snapshot(&mut self, id: u64) -> Result<(), SnapshotFault>
        ensures ok { OnOk result
            (self.new ≡ with_snapshots (without_snapshot id self.old.snapshots) self.old) }
        ensures err { OnErr result (self.new ≡ self.old) }
        ensures refused { IfErr result
            (λ fault. (fault ≡ SnapshotFault.NotOpen)
            × (snapshot_of id self.old.snapshots.opened ≡ None)) }
        ensures publisher { IsPublisher self.new }
    {
        self.snapshots.close(id)
    }
}
