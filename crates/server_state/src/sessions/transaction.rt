//! A transaction of who builds a service.

ghost use Rattle.std.specs.Prelude.{◌≡◌, ◌+◌, ◌⊎◌, Err, IfErr, IfOk, None, OnErr, OnOk, Some, if◌then◌else◌, length};
ghost use Rattle.std.specs.Option.{option_copied};
ghost use Rattle.server_state.specs.Ending.{HasBegun, IsSpoilt, writes};
ghost use Rattle.txlog.specs.Publishing.{RefusedOrMemory, after_change, after_delete, after_release, after_rollback, after_savepoint, after_update, delete_refusal, insert_refusal, message_refusal, message_with, release_refusal, rollback_refusal, savepoint_refusal, savepoints_of, truncate_refusal, update_refusal};
ghost use Rattle.txlog.specs.Rows.{rows_of};

use crate::disk::disk_fault::DiskFault;
use crate::fault::EndFault;
use crate::server_state::ServerState;
use crate::sessions::ended::ended;
use catalog::Catalog;
use copyboth::clock_now;
use shared_log::LogName;
use slots::SlotName;
use std::alloc::Global;
use std::marker::Model;
use std::sync::{MutexGuard, Wait};
use std::time::Clock;
use tables::{Change, Row};
use txlog::{Publisher, SessionFault, Tx};

/// A transaction in progress, from `Hub::transaction`. It holds the publisher's lock, so that nobody else changes rows beside it.
/// It isn't `Drop`: `end` ends it.
pub struct Transaction<'h, L: LogName + SlotName, R: Wait> {
    rt: &'h R,
    server_state: &'h ServerState<L>,
    publisher: MutexGuard<'h, Publisher<L>>,
    tx: Tx,
    /// Why a savepoint could not be ended: what was done under it stands, so the transaction can't commit.
    spoilt: Option<SessionFault>,
}

impl<'h, L: LogName + SlotName, R: Wait> Model for Transaction<'h, L, R> {
    ghost use Rattle.std.specs.Sync.Mutex.{mutex_guard_value};
    ghost use Rattle.server_state.specs.Ending.{TransactionState};

    ghost Value = { TransactionState };

    ghost view = { λ t. record {
      publisher = mutex_guard_value t.publisher;
      xid = t.tx;
      spoilt = t.spoilt;
    } };
}

/// A savepoint of a transaction. It isn't `Drop`: `Transaction::end_savepoint` ends it.
pub struct Savepoint {
    depth: u32,
}

impl<L: LogName + SlotName> ServerState<L> {
    /// Begins a transaction, once no other is in progress by this way. Refused in this order: `TooManyLive` (S10), `LogFull` (S7),
    /// `Memory` (S11).
    pub fn transaction<'h, R: Wait>(
        &'h self,
        rt: &'h R,
    ) -> Result<Transaction<'h, L, R>, SessionFault>
        ensures { IfOk result HasBegun }
    {
        let mut publisher = self.publisher.lock(rt);
        self.make_room(rt, &mut *publisher);
        match publisher.begin() {
            Ok(tx) => Ok(Transaction {
                rt,
                server_state: self,
                publisher,
                tx,
                spoilt: None,
            }),
            Err(fault) => {
                self.let_go(rt, publisher);
                Err(fault)
            }
        }
    }
}

impl<'h, L: LogName + SlotName, R: Wait> Transaction<'h, L, R> {
    /// The tables that it may change.
    pub(crate) fn catalog(&self) -> &Catalog
        ensures { result.now ≡ self.now.publisher.tables }
    {
        self.publisher.catalog()
    }

    pub(crate) fn alloc(&self) -> Global {
        self.server_state.alloc
    }

    /// The row with this key, with what this transaction has done. The key's values stand in table order. None where there is no
    /// such row, or no such table.
    pub(crate) fn row(&self, table: u32, key: &Row) -> Option<&Row>
        ensures { let at = self.now.publisher in
            option_copied result
            ≡ rows_of at.tables at.log (record { oid = table; values = key.now }) }
    {
        self.publisher.get(table, key)
    }

    /// Refused in this order: `UnknownTable` (S1), `RowShape` (S2) where the row doesn't fit the table, `TooLarge` (S6), `KeyHeld`
    /// (S5) where another transaction holds its key or the table, `DuplicateKey` (S3), `LogFull` (S7), `Memory` (S11).
    pub(crate) fn insert_row(&mut self, table: u32, row: Row) -> Result<(), SessionFault>
        ensures ok { OnOk result
            (self.new ≡ writes (λ xid. after_change xid (Change.Insert table row)) self.old) }
        ensures err { OnErr result (self.new ≡ self.old) }
        ensures refused { RefusedOrMemory (insert_refusal self.old.xid table row self.old.publisher)
            result }
    {
        self.publisher.insert(self.rt, &mut self.tx, table, row)
    }

    /// The row with this key becomes this one. Refused in this order: `UnknownTable` (S1), `RowShape` (S2) where the key or the row
    /// doesn't fit the table, `TooLarge` (S6), `KeyHeld` (S5) where another transaction holds one of the two keys or the table,
    /// `NoSuchRow` (S4), `DuplicateKey` (S3), `LogFull` (S7), `Memory` (S11).
    pub(crate) fn update_row(&mut self, table: u32, key: &Row, row: Row) -> Result<(), SessionFault>
        ensures ok { OnOk result
            (self.new ≡ writes
            (λ xid. after_update xid (record { oid = table; values = key.now }) row) self.old) }
        ensures err { OnErr result (self.new ≡ self.old) }
        ensures refused { RefusedOrMemory
            (update_refusal self.old.xid (record { oid = table; values = key.now }) row
            self.old.publisher) result }
    {
        self.publisher
            .update(self.rt, &mut self.tx, table, key, row)
    }

    /// Refused in this order: `UnknownTable` (S1), `RowShape` (S2) where the key doesn't fit the table, `KeyHeld` (S5) where
    /// another transaction holds it or the table, `NoSuchRow` (S4), `LogFull` (S7), `Memory` (S11).
    pub(crate) fn delete_row(&mut self, table: u32, key: &Row) -> Result<(), SessionFault>
        ensures ok { OnOk result
            (self.new ≡ writes
            (λ xid. after_delete xid (record { oid = table; values = key.now })) self.old) }
        ensures err { OnErr result (self.new ≡ self.old) }
        ensures refused { RefusedOrMemory
            (delete_refusal self.old.xid (record { oid = table; values = key.now })
            self.old.publisher) result }
    {
        self.publisher.delete(self.rt, &mut self.tx, table, key)
    }

    /// Empties these tables, and holds them. Refused in this order: `UnknownTable` (S1), `RowShape` (S2) where no table is named or
    /// one twice, `TooLarge` (S6) where too many are, `KeyHeld` (S5) where another transaction holds one of them or a key there,
    /// `LogFull` (S7), `Memory` (S11).
    pub(crate) fn truncate_tables(&mut self, tables: &[u32]) -> Result<(), SessionFault>
        ensures ok { OnOk result
            (self.new ≡ writes (λ xid. after_change xid (Change.Truncate tables.now)) self.old) }
        ensures err { OnErr result (self.new ≡ self.old) }
        ensures refused { RefusedOrMemory
            (truncate_refusal self.old.xid tables.now self.old.publisher) result }
    {
        self.publisher.truncate(self.rt, &mut self.tx, tables)
    }

    /// Writes a message, which streams that ask for messages send with this transaction. Refused in this order: `BadPrefix` (S13),
    /// `TooLarge` (S6) where its content is, `LogFull` (S7), `Memory` (S11).
    pub fn message(&mut self, prefix: &str, content: &[u8]) -> Result<(), SessionFault>
        ensures ok { OnOk result
            (self.new ≡ writes
            (λ xid. after_change xid (message_with prefix.now content.now)) self.old) }
        ensures err { OnErr result (self.new ≡ self.old) }
        ensures refused { RefusedOrMemory
            (message_refusal self.old.xid prefix.now content.now self.old.publisher) result }
    {
        self.publisher
            .message(self.rt, &mut self.tx, prefix, content)
    }

    /// Refused in this order: `TooDeep` (S9), `LogFull` (S7), `Memory` (S11).
    pub fn savepoint(&mut self) -> Result<Savepoint, SessionFault>
        ensures depth { IfOk result
            (λ s. s.depth ≡ length (savepoints_of self.old.xid self.old.publisher.live) + 1) }
        ensures ok { OnOk result (self.new ≡ writes after_savepoint self.old) }
        ensures err { OnErr result (self.new ≡ self.old) }
        ensures refused { RefusedOrMemory (savepoint_refusal self.old.xid self.old.publisher)
            result }
    {
        let depth = self.publisher.savepoint(self.rt, &mut self.tx)?;
        Ok(Savepoint { depth })
    }

    /// Ends a savepoint with what came of the work after it. At `Ok` what it changed stays, at `Err` all of it is undone. Where that
    /// is refused, by `NoSavepoint` (S8) where an outer one ended before, or `LogFull` (S7) or `Memory` (S11) where all is to be
    /// undone, the transaction can't commit any more: `end` aborts it, whatever it is ended with.
    pub fn end_savepoint<T, E>(&mut self, savepoint: Savepoint, done: Result<T, E>) -> Result<T, E>
    where
        T: Drop,
        E: From<SessionFault> + Drop,
        ensures ok { OnOk result
            ((result ≡ done)
            × (self.new ≡ writes (λ xid. after_release xid savepoint.depth) self.old)) }
        ensures err { OnErr result
            (((result ≡ done)
            × (self.new ≡ writes (λ xid. after_rollback xid savepoint.depth) self.old))
            ⊎ IsSpoilt self.old self.new) }
    {
        let Savepoint { depth } = savepoint;
        match self.leave_savepoint(depth, done.is_ok()) {
            Ok(()) => done,
            Err(fault) => {
                drop(done);
                self.spoilt = Some(fault);
                Err(E::from(fault))
            }
        }
    }

    fn leave_savepoint(&mut self, depth: u32, stays: bool) -> Result<(), SessionFault>
        ensures ok { OnOk result
            (self.new ≡ writes
            (λ xid. if stays then after_release xid depth else after_rollback xid depth)
            self.old) }
        ensures err { OnErr result (self.new ≡ self.old) }
        ensures refused { RefusedOrMemory
            (if stays then release_refusal self.old.xid depth self.old.publisher
            else rollback_refusal self.old.xid depth self.old.publisher) result }
    {
        if stays {
            self.publisher.release(&mut self.tx, depth)
        } else {
            self.publisher.rollback_to(self.rt, &mut self.tx, depth)
        }
    }
}

impl<'h, L: LogName + SlotName, R: Wait + Clock> Transaction<'h, L, R> {
    /// Ends the transaction with what came of its work. At `Ok` it commits at the time of the clock, and the streams read
    /// on after it; at `Err` it is aborted, and nothing of it stands. A commit that is refused is an abort
    /// (`Aborted`, with the commit's `SessionFault`). Where memory is refused for that too, the error is `Unended`, whatever the
    /// work answered. Where the log is kept on a disk, it is answered once it is there: `Disk` where that has failed, before, and then
    /// nothing of it stands, or since.
    pub fn end<T, E>(self, done: Result<T, E>) -> Result<T, E>
    where
        T: Drop,
        E: From<EndFault> + Drop,
        ensures ok { OnOk result ((result ≡ done) × (self.entry.spoilt ≡ None)) }
        ensures err { IfErr result
            (λ e. (done ≡ Err e) ⊎ ((fault : EndFault) × E.from_gives fault e)) }
    {
        let time = clock_now(self.rt, 0);
        self.end_at(time, done)
    }

    /// The same, with a commit at this time, in microseconds since 2000-01-01.
    #[tactic(auto, using(crate::proofs::Ends::told_ok, crate::proofs::Ends::told_err))]
    pub fn end_at<T, E>(self, time: i64, done: Result<T, E>) -> Result<T, E>
    where
        T: Drop,
        E: From<EndFault> + Drop,
        ensures ok { OnOk result ((result ≡ done) × (self.entry.spoilt ≡ None)) }
        ensures err { IfErr result
            (λ e. (done ≡ Err e) ⊎ ((fault : EndFault) × E.from_gives fault e)) }
    {
        let (rt, server_state) = (self.rt, self.server_state);
        let done = unless(server_state.disk_fault(rt), done);
        let (answer, end) = self.end_in_log(time, done);
        let unsynced = if answer.is_ok() {
            server_state.await_kept(rt, end)
        } else {
            None
        };
        unless(unsynced, answer)
    }

    /// Ends the transaction in the log, and answers where that ends then.
    #[tactic(auto, using(crate::proofs::Ends::told_by))]
    fn end_in_log<T, E>(self, time: i64, done: Result<T, E>) -> (Result<T, E>, u64)
    where
        T: Drop,
        E: From<EndFault> + Drop,
        ensures ok { OnOk result.0 ((result.0 ≡ done) × (self.entry.spoilt ≡ None)) }
        ensures err { IfErr result.0
            (λ e. (done ≡ Err e) ⊎ ((fault : EndFault) × E.from_gives fault e)) }
    {
        let Transaction {
            rt,
            server_state,
            mut publisher,
            tx,
            spoilt,
        } = self;
        let (answer, unheard) = ended(rt, &mut *publisher, tx, time, spoilt, done);
        let end = publisher.end();
        server_state.let_go(rt, publisher);
        if let Some(unheard) = unheard {
            server_state.tell(rt, unheard);
        }
        (answer, end)
    }
}

/// What came of the work, unless that went well and the disk is at fault.
fn unless<T, E>(fault: Option<DiskFault>, done: Result<T, E>) -> Result<T, E>
where
    T: Drop,
    E: From<EndFault> + Drop,
    ensures ok { OnOk result ((result ≡ done) × (fault ≡ None)) }
    ensures own { IfErr done (λ e. result ≡ Err e) }
    ensures err { IfErr result
        (λ e. (done ≡ Err e)
        ⊎ ((f : DiskFault) × (fault ≡ Some f) × E.from_gives (EndFault.Disk f) e)) }
{
    match (fault, done) {
        (Some(fault), Ok(done)) => {
            drop(done);
            Err(E::from(EndFault::Disk(fault)))
        }
        (_, done) => done,
    }
}
