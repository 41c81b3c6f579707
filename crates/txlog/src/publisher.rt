//! The publisher: what sessions call to write the log.

ghost use Rattle.std.specs.Prelude.{◌≡◌, ◌+◌, ◌-◌, ◌≤◌, ◌<◌, IfErr, IfOk, Ok, OnErr, OnOk, Some, None, length, slice_get, true, vec_len};
ghost use Rattle.std.specs.List.{AllByRecursion};
ghost use Rattle.std.specs.Option.{option_copied};
ghost use mathlib.Core.List.{IsPrefix};
ghost use Rattle.shared_log.specs.SeenPrefixes.{settled_records};
ghost use Rattle.txlog.specs.Invariants.{IsPublisher};
ghost use Rattle.txlog.specs.Rows.{rows_of};
ghost use Rattle.txlog.specs.Publishing.{RefusedOrMemory, RefusedOrMemoryBack, RefusedExactly, after_abort, after_commit, new_publisher, begin_refusal, after_begin, after_give_back, end_refusal, is_live, log_end, receipt_of, release_refusal, after_release, rollback_refusal, after_rollback, room, after_savepoint, savepoint_refusal, savepoints_of};

use crate::answers::fault::SessionFault;
use crate::answers::receipt::Receipt;
use crate::limits::{MAX_DEPTH, MAX_LIVE, MOST_RECORDS};
use crate::publisher_parts::PublisherParts;
use crate::snapshots::Snapshots;
use crate::transactions::live::Live;
use crate::transactions::savepoint::Savepoint;
use crate::transactions::tx::Tx;
use catalog::Catalog;
use shared_log::{LogName, LogReader, LogWriter};
use std::alloc::Global;
use std::marker::Model;
use std::sync::Wait;
use store::Store;
use tables::Row;
use wal::{Body, FIRST_XID};

/// The log, the transactions that write it, and the rows that it leaves in the tables (`rows_of`). A place in the log is kept
/// in reserve for the end of each transaction.
///
/// A session calls `begin` and gets a `Tx`. With it, in any order, it calls `insert`, `update`, `delete`, `savepoint`,
/// `rollback_to` and `release`, and last `commit`, `abort` or `leave`, which take the `Tx`. Sessions may take turns, call by call.
///
/// Ok means that the one record of the call stands at the log's end; `begin`, `release` and `leave` write none. An error means
/// that nothing has changed, so the call may be made again: `Memory` (S11) is want of memory, `LogFull` (S7) a full log,
/// `NoTransaction` (S14) a `Tx` that is not live in this log, and the others say what is wrong with the call. `get`, `end` and
/// `tell` may be called at any time.
///
/// It isn't `Drop`: `close` ends it.
pub struct Publisher<L: LogName> {
    pub(crate) store: Store,
    /// How many records the log may have: as many more than lie in memory at once as may be given back.
    capacity: usize,
    pub(crate) log: LogWriter<L>,
    pub(crate) next_xid: u32,
    pub(crate) live: Live,
    pub(crate) snapshots: Snapshots,
}

impl<L: LogName> Model for Publisher<L> {
    ghost use Rattle.txlog.specs.Publishing.{PublisherState};
    ghost use Rattle.txlog.specs.Invariants.{KeepsLog};

    ghost Value = { PublisherState };

    ghost view = { λ p. record {
      tables = p.store.tables;
      capacity = p.capacity;
      log = p.log.records;
      given = p.log.given;
      next_xid = p.next_xid;
      live = p.live;
      snapshots = p.snapshots;
    } };

    ghost invariant = { λ p. KeepsLog p.store (record {
      tables = p.store.tables;
      capacity = p.capacity;
      log = p.log.records;
      given = p.log.given;
      next_xid = p.next_xid;
      live = p.live;
      snapshots = p.snapshots;
    }) };
}

impl<L: LogName> Publisher<L> {
    ghost use Rattle.shared_log.specs.Readers.{seen_of};

    /// A publisher of an empty log, and its readers. `Memory` (S11) where memory is refused; nothing is left of it then.
    pub fn open<R: Wait>(
        rt: &R,
        opened: PublisherParts,
    ) -> Result<(Self, Vec<LogReader<L>>), SessionFault>
        requires name { opened.history.seen.book ≡ L.book }
        ensures ok { IfOk result (λ made. made.0 ≡ new_publisher opened.catalog opened.capacity) }
        ensures readers { IfOk result
            (λ made. (vec_len made.1 ≡ opened.readers)
            × AllByRecursion (λ reader. reader.place ≡ 0) made.1.items) }
        ensures err { IfErr result (λ e. e ≡ SessionFault.Memory) }
    {
        let PublisherParts {
            alloc,
            catalog,
            capacity,
            readers,
            history,
        } = opened;
        match LogWriter::open(rt, alloc, history, capacity, readers) {
            Ok((log, made)) => {
                let publisher = Publisher {
                    store: Store::new(alloc, catalog),
                    capacity,
                    log,
                    next_xid: FIRST_XID,
                    live: Live::new(alloc),
                    snapshots: Snapshots::new(alloc),
                };
                Ok((publisher, made))
            }
            Err(_) => Err(SessionFault::Memory),
        }
    }

    /// Ends the log. It waits for readers that are in it; later fetches are `NoEntry` (E1).
    pub fn close<R: Wait>(self, rt: &R) {
        let Publisher {
            store: _,
            capacity: _,
            log,
            next_xid: _,
            live: _,
            snapshots: _,
        } = self;
        log.close(rt);
    }

    pub fn catalog(&self) -> &Catalog
        ensures { result.now ≡ self.now.tables }
    {
        self.store.catalog()
    }

    /// The position where the log ends.
    pub fn end(&self) -> u64
        ensures value { result ≡ log_end self.now }
        ensures publisher { IsPublisher self.now }
    {
        self.log.end()
    }

    /// How many records the log has had.
    pub fn count(&self) -> usize
        ensures { result ≡ length self.now.log }
    {
        self.log.count()
    }

    /// How many of them were given back, with those that leave memory with the next ones.
    pub fn given(&self) -> usize
        ensures { result ≡ self.now.given }
    {
        self.log.given()
    }

    /// How many of them lie in memory, without those that leave it with the next ones.
    pub fn kept(&self) -> usize
        ensures { result ≡ length self.now.log - self.now.given }
    {
        self.log.count() - self.log.given()
    }

    /// Tells a reader of the whole log: its next fetch sees no less. It answers how many records that are, and takes no memory.
    pub fn tell(&mut self, reader: &mut LogReader<L>) -> usize
        ensures count { result ≡ length self.old.log }
        ensures same { self.new ≡ self.old }
        ensures kept { IsPrefix reader.old.told reader.new.told }
        ensures told { IsPrefix self.old.log (settled_records reader.new.told) }
        ensures place { (seen_of reader.new ≡ seen_of reader.old)
            × (reader.new.place ≡ reader.old.place) }
        ensures publisher { IsPublisher self.new }
    {
        self.log.tell(reader)
    }

    /// Lets the records before a place be given back, but for those from the oldest of a transaction in progress on, so that the log
    /// has room for as many more. A reader that asks for one that was given back is told so.
    pub fn give_back(&mut self, up_to: usize)
        ensures given { self.new ≡ after_give_back up_to self.old }
        ensures publisher { IsPublisher self.new }
    {
        let before = self.log.given();
        self.log.give_back(up_to);
        let more = self.log.given() - before;
        self.capacity = MOST_RECORDS.min(self.capacity + more);
    }

    /// The row with this key, committed or not. The key's values stand in table order. None where there is no such row, or no
    /// such table.
    pub fn get(&self, oid: u32, key: &Row) -> Option<&Row>
        ensures row { option_copied result
            ≡ rows_of self.now.tables self.now.log (record { oid = oid; values = key.now }) }
        ensures publisher { IsPublisher self.now }
    {
        self.store.get(oid, key)
    }

    /// The records that may still be written.
    pub fn room(&self) -> usize
        ensures { result ≡ room self.now }
    {
        self.capacity - (self.log.count() + self.live.len())
    }

    /// A new transaction. Refused in this order: `TooManyLive` (S10) where 256 are live, `LogFull` (S7), `Memory` (S11).
    pub fn begin(&mut self) -> Result<Tx, SessionFault>
        ensures ok { IfOk result
            (λ tx. (tx ≡ self.old.next_xid) × (self.new ≡ after_begin self.old)) }
        ensures err { OnErr result (self.new ≡ self.old) }
        ensures refused { RefusedOrMemory (begin_refusal self.old) result }
        ensures publisher { IsPublisher self.new }
    {
        if self.live.len() >= MAX_LIVE {
            return Err(SessionFault::TooManyLive);
        }
        if self.room() == 0 {
            return Err(SessionFault::LogFull);
        }
        let xid = self.next_xid;
        self.live.push(xid)?;
        self.next_xid = xid + 1;
        Ok(Tx::new(xid))
    }

    /// Commits the transaction. It is never refused for room; `NoTransaction` (S14) and `Memory` (S11) give it back.
    pub fn commit<R: Wait>(
        &mut self,
        rt: &R,
        tx: Tx,
        time: i64,
    ) -> Result<Receipt<L>, (Tx, SessionFault)>
        ensures ok { IfOk result
            (λ receipt. (receipt ≡ receipt_of tx time self.old)
            × (self.new ≡ after_commit tx time self.old)) }
        ensures err { IfErr result (λ back. (back.0 ≡ tx) × (self.new ≡ self.old)) }
        ensures refused { RefusedOrMemoryBack (end_refusal tx self.old) result }
        ensures publisher { IsPublisher self.new }
    {
        let xid = tx.xid();
        if !self.live.contains(xid) {
            return Err((tx, SessionFault::NoTransaction));
        }
        let told = match self.log.push(rt, xid, Body::Commit(xid, time)) {
            Ok(told) => told,
            Err(_) => return Err((tx, SessionFault::Memory)),
        };
        self.store.forget(xid);
        self.live.remove(xid);
        tx.spend();
        Ok(Receipt::new(told, xid))
    }

    /// Aborts the transaction. It is never refused for room; `NoTransaction` (S14) and `Memory` (S11) give it back.
    pub fn abort<R: Wait>(&mut self, rt: &R, tx: Tx) -> Result<(), (Tx, SessionFault)>
        ensures ok { OnOk result (self.new ≡ after_abort tx self.old) }
        ensures err { IfErr result (λ back. (back.0 ≡ tx) × (self.new ≡ self.old)) }
        ensures refused { RefusedOrMemoryBack (end_refusal tx self.old) result }
        ensures publisher { IsPublisher self.new }
    {
        let xid = tx.xid();
        if !self.live.contains(xid) {
            return Err((tx, SessionFault::NoTransaction));
        }
        match self.log.push(rt, xid, Body::Abort(xid)) {
            Ok(_) => {}
            Err(_) => return Err((tx, SessionFault::Memory)),
        }
        self.store.undo_to(xid, 0);
        self.store.forget(xid);
        self.live.remove(xid);
        tx.spend();
        Ok(())
    }

    /// Sets a savepoint, and answers its depth. Refused in this order: `NoTransaction` (S14), `TooDeep` (S9) at depth 16,
    /// `LogFull` (S7), `Memory` (S11).
    pub fn savepoint<R: Wait>(&mut self, rt: &R, tx: &mut Tx) -> Result<u32, SessionFault>
        ensures depth { IfOk result
            (λ depth. depth ≡ length (savepoints_of tx.old self.old.live) + 1) }
        ensures ok { OnOk result (self.new ≡ after_savepoint tx.old self.old) }
        ensures err { OnErr result (self.new ≡ self.old) }
        ensures refused { RefusedOrMemory (savepoint_refusal tx.old self.old) result }
        ensures tx { tx.new ≡ tx.old }
        ensures publisher { IsPublisher self.new }
    {
        let xid = tx.xid();
        let depth = self.test_savepoint(xid)?;
        let parent = self.live.innermost(xid);
        let savepoint = self.next_xid;
        let mark = self.store.mark(xid);
        let opened = Savepoint {
            xid: savepoint,
            mark,
        };
        self.live.push_savepoint(xid, opened)?;
        match self.log.push(rt, xid, Body::Assign(savepoint, parent)) {
            Ok(_) => {}
            Err(_) => {
                self.live.truncate_savepoints(xid, depth);
                return Err(SessionFault::Memory);
            }
        }
        self.next_xid = savepoint + 1;
        Ok(depth as u32 + 1)
    }

    /// The depth before a savepoint.
    fn test_savepoint(&self, xid: u32) -> Result<usize, SessionFault>
        ensures refused { RefusedExactly (savepoint_refusal xid self.now) result }
        ensures live { OnOk result (is_live xid self.now.live ≡ true) }
        ensures room { OnOk result (0 < room self.now) }
        ensures depth { IfOk result
            (λ depth. (depth ≡ length (savepoints_of xid self.now.live)) × (depth < MAX_DEPTH)) }
    {
        if !self.live.contains(xid) {
            return Err(SessionFault::NoTransaction);
        }
        let depth = self.live.savepoints(xid).len();
        if depth >= MAX_DEPTH {
            return Err(SessionFault::TooDeep);
        }
        if self.room() == 0 {
            return Err(SessionFault::LogFull);
        }
        Ok(depth)
    }

    /// Rolls back to the savepoint of this depth, 1 for the outermost, and closes it. Refused in this order: `NoTransaction`
    /// (S14), `NoSavepoint` (S8), `LogFull` (S7), `Memory` (S11).
    pub fn rollback_to<R: Wait>(
        &mut self,
        rt: &R,
        tx: &mut Tx,
        depth: u32,
    ) -> Result<(), SessionFault>
        ensures ok { OnOk result (self.new ≡ after_rollback tx.old depth self.old) }
        ensures err { OnErr result (self.new ≡ self.old) }
        ensures refused { RefusedOrMemory (rollback_refusal tx.old depth self.old) result }
        ensures tx { tx.new ≡ tx.old }
        ensures publisher { IsPublisher self.new }
    {
        let xid = tx.xid();
        let savepoint = self.test_rollback(xid, depth as usize)?;
        self.log.push(rt, xid, Body::AbortSub(savepoint.xid))?;
        self.store.undo_to(xid, savepoint.mark);
        self.live.truncate_savepoints(xid, depth as usize - 1);
        Ok(())
    }

    /// The savepoint of this depth.
    pub(crate) fn test_rollback(&self, xid: u32, depth: usize) -> Result<Savepoint, SessionFault>
        ensures refused { RefusedExactly (rollback_refusal xid depth self.now) result }
        ensures live { OnOk result (is_live xid self.now.live ≡ true) }
        ensures room { OnOk result (0 < room self.now) }
        ensures depth { OnOk result
            ((0 < depth) × (depth ≤ length (savepoints_of xid self.now.live))) }
        ensures value { IfOk result
            (λ s. slice_get (savepoints_of xid self.now.live) (depth - 1) ≡ Some s) }
    {
        if !self.live.contains(xid) {
            return Err(SessionFault::NoTransaction);
        }
        let savepoints = self.live.savepoints(xid);
        if depth == 0 || savepoints.len() < depth {
            return Err(SessionFault::NoSavepoint);
        }
        if self.room() == 0 {
            return Err(SessionFault::LogFull);
        }
        Ok(savepoints[depth - 1])
    }

    /// Releases the savepoint of this depth, 1 for the outermost, and those above. Refused in this order: `NoTransaction`
    /// (S14), `NoSavepoint` (S8).
    pub fn release(&mut self, tx: &mut Tx, depth: u32) -> Result<(), SessionFault>
        ensures ok { OnOk result (self.new ≡ after_release tx.old depth self.old) }
        ensures err { OnErr result (self.new ≡ self.old) }
        ensures refused { RefusedExactly (release_refusal tx.old depth self.old) result }
        ensures tx { tx.new ≡ tx.old }
        ensures publisher { IsPublisher self.new }
    {
        let xid = tx.xid();
        if !self.live.contains(xid) {
            return Err(SessionFault::NoTransaction);
        }
        let depth = depth as usize;
        if depth == 0 || self.live.savepoints(xid).len() < depth {
            return Err(SessionFault::NoSavepoint);
        }
        self.live.truncate_savepoints(xid, depth - 1);
        Ok(())
    }

    /// The transaction stays live.
    pub fn leave(&self, tx: Tx) {
        tx.spend();
    }
}
