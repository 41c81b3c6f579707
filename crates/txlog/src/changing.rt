//! How sessions change rows: the tables take the change, and the log a record of it. A message goes the same way.

ghost use Rattle.std.specs.Prelude.{◌≡◌, ◌+◌, ◌∷◌, ◌++◌, [], ◌<◌, ◌^◌, IfErr, IfOk, List, OnErr, OnOk, false, true};
ghost use Rattle.store.specs.History.{Made, count_of, history_after_rollback};
ghost use Rattle.store.specs.Keeping.{Keeps};
ghost use Rattle.tables.specs.Reading.{IsCoded};
ghost use Rattle.tables.specs.Spelling.{IsShort};
ghost use Rattle.txlog.specs.Invariants.{IsPublisher};
ghost use Rattle.wal.specs.Log.{IsWellFormedLog, end_of, top_of};
ghost use Rattle.wal.specs.Records.{record_after};
ghost use Rattle.txlog.specs.Publishing.{RefusedOrMemory, after_change, after_delete, delete_refusal, fault_at, innermost, insert_refusal, is_live, message_refusal, message_with, room, truncate_refusal, update_refusal, after_update};
ghost use Rattle.txlog.specs.Rows.{history_of};
ghost use Rattle.wal.specs.declared.record.TheConstants.{FIRST_POSITION};

use crate::answers::fault::SessionFault;
use crate::publisher::Publisher;
use crate::transactions::tx::Tx;
use shared_log::{LogName, LogWriter};
use std::alloc::{AllocError, Global};
use std::sync::Wait;
use store::{Store, StoreFault};
use tables::{Change, Row};
use wal::{Body, LoggedChange};

/// A change that is about to be made: what it takes memory of, its transaction, the innermost open subtransaction, how many
/// changes of the transaction stand before it, and the room of the log.
#[derive(Clone, Copy)]
struct Changing {
    alloc: Global,
    xid: u32,
    innermost: u32,
    mark: usize,
    room: usize,
}

impl<L: LogName> Publisher<L> {
    /// Inserts a row. Refused in this order: `NoTransaction` (S14), `UnknownTable` (S1), `RowShape` (S2) where the row doesn't
    /// fit the table, `TooLarge` (S6), `KeyHeld` (S5) where another transaction holds its key or the table, `DuplicateKey`
    /// (S3), `LogFull` (S7), `Memory` (S11).
    pub fn insert<R: Wait>(
        &mut self,
        rt: &R,
        tx: &mut Tx,
        oid: u32,
        row: Row,
    ) -> Result<(), SessionFault>
        ensures ok { OnOk result (self.new ≡ after_change tx.old (Change.Insert oid row) self.old) }
        ensures err { OnErr result (self.new ≡ self.old) }
        ensures refused { RefusedOrMemory (insert_refusal tx.old oid row self.old) result }
        ensures tx { tx.new ≡ tx.old }
        ensures publisher { IsPublisher self.new }
    {
        let at = self.changing(tx)?;
        match self.store.insert(at.xid, oid, row) {
            Ok(change) => write(&mut self.store, &mut self.log, rt, at, change),
            Err(fault) => Err(refusal(fault, at.room)),
        }
    }

    /// Puts a row in the place of the one with this key, whose key it may change. Refused in this order: `NoTransaction` (S14),
    /// `UnknownTable` (S1), `RowShape` (S2) where the key or the row doesn't fit the table, `TooLarge` (S6), `KeyHeld` (S5)
    /// where another transaction holds one of the two keys or the table, `NoSuchRow` (S4), `DuplicateKey` (S3), `LogFull` (S7),
    /// `Memory` (S11).
    pub fn update<R: Wait>(
        &mut self,
        rt: &R,
        tx: &mut Tx,
        oid: u32,
        key: &Row,
        row: Row,
    ) -> Result<(), SessionFault>
        ensures ok { OnOk result
            (self.new ≡ after_update tx.old (record { oid = oid; values = key.now }) row self.old) }
        ensures err { OnErr result (self.new ≡ self.old) }
        ensures refused { RefusedOrMemory
            (update_refusal tx.old (record { oid = oid; values = key.now }) row self.old) result }
        ensures tx { tx.new ≡ tx.old }
        ensures publisher { IsPublisher self.new }
    {
        let at = self.changing(tx)?;
        match self.store.update(at.xid, oid, key, row) {
            Ok(change) => write(&mut self.store, &mut self.log, rt, at, change),
            Err(fault) => Err(refusal(fault, at.room)),
        }
    }

    /// Deletes the row with this key. Refused in this order: `NoTransaction` (S14), `UnknownTable` (S1), `RowShape` (S2) where
    /// the key doesn't fit the table, `KeyHeld` (S5) where another transaction holds it or the table, `NoSuchRow` (S4),
    /// `LogFull` (S7), `Memory` (S11).
    pub fn delete<R: Wait>(
        &mut self,
        rt: &R,
        tx: &mut Tx,
        oid: u32,
        key: &Row,
    ) -> Result<(), SessionFault>
        ensures ok { OnOk result
            (self.new ≡ after_delete tx.old (record { oid = oid; values = key.now }) self.old) }
        ensures err { OnErr result (self.new ≡ self.old) }
        ensures refused { RefusedOrMemory
            (delete_refusal tx.old (record { oid = oid; values = key.now }) self.old) result }
        ensures tx { tx.new ≡ tx.old }
        ensures publisher { IsPublisher self.new }
    {
        let at = self.changing(tx)?;
        match self.store.delete(at.xid, oid, key) {
            Ok(change) => write(&mut self.store, &mut self.log, rt, at, change),
            Err(fault) => Err(refusal(fault, at.room)),
        }
    }

    /// Empties tables, and holds them. Refused in this order: `NoTransaction` (S14), `UnknownTable` (S1), `RowShape` (S2) where
    /// no table is named or one twice, `TooLarge` (S6) where too many are, `KeyHeld` (S5) where another transaction holds one
    /// of them or a key there, `LogFull` (S7), `Memory` (S11).
    pub fn truncate<R: Wait>(
        &mut self,
        rt: &R,
        tx: &mut Tx,
        oids: &[u32],
    ) -> Result<(), SessionFault>
        ensures ok { OnOk result
            (self.new ≡ after_change tx.old (Change.Truncate oids.now) self.old) }
        ensures err { OnErr result (self.new ≡ self.old) }
        ensures refused { RefusedOrMemory (truncate_refusal tx.old oids.now self.old) result }
        ensures tx { tx.new ≡ tx.old }
        ensures publisher { IsPublisher self.new }
    {
        let at = self.changing(tx)?;
        match self.store.truncate(at.xid, oids) {
            Ok(change) => write(&mut self.store, &mut self.log, rt, at, change),
            Err(fault) => Err(refusal(fault, at.room)),
        }
    }

    /// Writes a message, which is the transaction's as a change of it is, and changes no row. Refused in this order:
    /// `NoTransaction` (S14), `BadPrefix` (S13), `TooLarge` (S6) where its content is, `LogFull` (S7), `Memory` (S11).
    pub fn message<R: Wait>(
        &mut self,
        rt: &R,
        tx: &mut Tx,
        prefix: &str,
        content: &[u8],
    ) -> Result<(), SessionFault>
        ensures ok { OnOk result
            (self.new ≡ after_change tx.old (message_with prefix.now content.now) self.old) }
        ensures err { OnErr result (self.new ≡ self.old) }
        ensures refused { RefusedOrMemory (message_refusal tx.old prefix.now content.now self.old)
            result }
        ensures tx { tx.new ≡ tx.old }
        ensures publisher { IsPublisher self.new }
    {
        let at = self.changing(tx)?;
        match self.store.message(at.xid, prefix, content) {
            Ok(change) => write(&mut self.store, &mut self.log, rt, at, change),
            Err(fault) => Err(refusal(fault, at.room)),
        }
    }

    /// What a change of a live transaction needs.
    fn changing(&self, tx: &Tx) -> Result<Changing, SessionFault>
        ensures live { IfOk result
            (λ at. (at.xid ≡ tx.now) × (is_live tx.now self.now.live ≡ true)) }
        ensures innermost { IfOk result (λ at. at.innermost ≡ innermost tx.now self.now.live) }
        ensures mark { IfOk result (λ at. at.mark ≡ count_of tx.now (history_of self.now.log)) }
        ensures room { IfOk result (λ at. at.room ≡ room self.now) }
        ensures err { IfErr result
            (λ fault. (fault ≡ SessionFault.NoTransaction)
            × (is_live tx.now self.now.live ≡ false)) }
    {
        let xid = tx.xid();
        if !self.live.contains(xid) {
            return Err(SessionFault::NoTransaction);
        }
        Ok(Changing {
            alloc: self.live.allocator(),
            xid,
            innermost: self.live.innermost(xid),
            mark: self.store.mark(xid),
            room: self.room(),
        })
    }
}

/// Writes the record of a change that the store has made. Where the log has no room or no memory, the change is undone.
fn write<L: LogName, R: Wait>(
    store: &mut Store,
    log: &mut LogWriter<L>,
    rt: &R,
    at: Changing,
    change: Change,
) -> Result<(), SessionFault>
    requires short { IsShort change }
    requires coded { IsCoded change }
    requires fits { end_of FIRST_POSITION log.old.records + 2 ^ 14 < 2 ^ 64 }
    requires good { 0 < at.room →
        IsWellFormedLog
        (log.old.records ++ record_after log.old.records (Body.Change at.innermost change) ∷ []) }
    requires top { top_of log.old.records at.innermost ≡ at.xid }
    ensures ok { OnOk result
        ((log.new.records
        ≡ log.old.records ++ record_after log.old.records (Body.Change at.innermost change) ∷ [])
        × (store.new ≡ store.old)) }
    ensures room { OnOk result (0 < at.room) }
    ensures err { OnErr result (log.new.records ≡ log.old.records) }
    ensures given { log.new.given ≡ log.old.given }
    ensures undone { OnErr result
        ((history : List Made) → Keeps store.old history →
        Keeps store.new (history_after_rollback at.xid at.mark history)) }
    ensures refused { IfErr result (λ fault. fault ≡ fault_at at.room StoreFault.Memory) }
    ensures tables { store.new.tables ≡ store.old.tables }
{
    if at.room == 0 {
        // Let go by one call, which keeps the proof short.
        drop(change);
        store.undo_to(at.xid, at.mark);
        return Err(SessionFault::LogFull);
    }
    let pushed = push(log, rt, at, &change);
    // Let go before the ways out, which keeps the proof short.
    drop(change);
    match pushed {
        Ok(()) => Ok(()),
        Err(_) => {
            store.undo_to(at.xid, at.mark);
            Err(SessionFault::Memory)
        }
    }
}

/// Adds the record of a change to the log, or, where memory is refused, nothing.
fn push<L: LogName, R: Wait>(
    log: &mut LogWriter<L>,
    rt: &R,
    at: Changing,
    change: &Change,
) -> Result<(), AllocError>
    requires short { IsShort change.now }
    requires coded { IsCoded change.now }
    requires fits { end_of FIRST_POSITION log.old.records + 2 ^ 14 < 2 ^ 64 }
    requires good { IsWellFormedLog
        (log.old.records
        ++ record_after log.old.records (Body.Change at.innermost change.now) ∷ []) }
    requires top { top_of log.old.records at.innermost ≡ at.xid }
    ensures ok { OnOk result
        (log.new.records ≡ log.old.records
        ++ record_after log.old.records (Body.Change at.innermost change.now) ∷ []) }
    ensures err { OnErr result (log.new.records ≡ log.old.records) }
    ensures given { log.new.given ≡ log.old.given }
{
    let logged = LoggedChange::of(at.alloc, change)?;
    log.push(rt, at.xid, Body::Change(at.innermost, logged))?;
    Ok(())
}

/// Why the publisher refuses what the store refused: want of memory comes after want of room.
pub(crate) fn refusal(fault: StoreFault, room: usize) -> SessionFault
    ensures { result ≡ fault_at room fault }
{
    match fault {
        StoreFault::Memory if room == 0 => SessionFault::LogFull,
        other => SessionFault::from(other),
    }
}
