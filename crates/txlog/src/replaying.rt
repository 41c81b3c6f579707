//! A log that goes on by records of an earlier one: each call writes one of them exactly as it was, or none.

ghost use Rattle.std.specs.Prelude.{◌≡◌, ◌∷◌, ◌++◌, [], true, Some, IfOk, OnErr, OnOk};
ghost use Rattle.txlog.specs.Invariants.{IsPublisher};
ghost use Rattle.txlog.specs.Publishing.{after_change, innermost};
ghost use Rattle.txlog.specs.Replaying.{IsBeside, OnlyAborts};
ghost use Rattle.txlog.specs.Rows.{rows_of};
ghost use Rattle.wal.specs.Records.{record_after};
ghost use Rattle.wal.specs.declared.record.Body.TheVariants.{Abort, AbortSub, Assign, Commit, Note};

use crate::answers::fault::SessionFault;
use crate::answers::replay_fault::ReplayFault;
use crate::publisher::Publisher;
use crate::transactions::tx::Tx;
use shared_log::LogName;
use std::sync::Wait;
use tables::{Change, Message, Row};
use wal::Body;

impl<L: LogName> Publisher<L> {
    /// A change under this xid. `OtherRow` where an earlier row of it isn't the one that stands there, `OutOfOrder` where no transaction
    /// in progress has the xid, or `Refused` as the change is.
    pub fn replay_change<R: Wait>(
        &mut self,
        rt: &R,
        xid: u32,
        change: Change,
    ) -> Result<(), ReplayFault>
        ensures ok { OnOk result
            (self.new.log
            ≡ self.old.log ++ record_after self.old.log (Body.Change xid change) ∷ []) }
        ensures err { OnErr result (self.new.log ≡ self.old.log) }
        ensures beside { IsBeside self.old self.new }
        ensures publisher { IsPublisher self.new }
    {
        let top = self.reach(xid)?;
        let mut tx = Tx::new(top);
        let made = self.change_again(rt, &mut tx, change);
        tx.spend();
        made
    }

    /// A savepoint: the subtransaction and its parent. `OutOfOrder` where no transaction in progress has the parent, or xids don't come to
    /// the subtransaction; `Refused` as a savepoint is.
    pub fn replay_savepoint<R: Wait>(
        &mut self,
        rt: &R,
        subtransaction: u32,
        parent: u32,
    ) -> Result<(), ReplayFault>
        ensures ok { OnOk result
            (self.new.log
            ≡ self.old.log ++ record_after self.old.log (Assign subtransaction parent) ∷ []) }
        ensures err { OnErr result (self.new.log ≡ self.old.log) }
        ensures beside { IsBeside self.old self.new }
        ensures publisher { IsPublisher self.new }
    {
        self.begin_up_to(subtransaction.saturating_sub(1))?;
        let top = self.reach(parent)?;
        if self.next_xid != subtransaction {
            return Err(ReplayFault::OutOfOrder);
        }
        let mut tx = Tx::new(top);
        let set = self.savepoint(rt, &mut tx);
        tx.spend();
        set?;
        Ok(())
    }

    /// A subtransaction that is rolled back. `OutOfOrder` where no transaction in progress has it; `Refused` as a rollback is.
    pub fn replay_rollback<R: Wait>(
        &mut self,
        rt: &R,
        subtransaction: u32,
    ) -> Result<(), ReplayFault>
        ensures ok { OnOk result
            (self.new.log
            ≡ self.old.log ++ record_after self.old.log (AbortSub subtransaction) ∷ []) }
        ensures err { OnErr result (self.new.log ≡ self.old.log) }
        ensures beside { IsBeside self.old self.new }
        ensures publisher { IsPublisher self.new }
    {
        let Some((top, depth)) = self.live.holder(subtransaction) else {
            return Err(ReplayFault::OutOfOrder);
        };
        if self.test_rollback(top, depth as usize)?.xid != subtransaction {
            return Err(ReplayFault::OutOfOrder);
        }
        let mut tx = Tx::new(top);
        let rolled_back = self.rollback_to(rt, &mut tx, depth);
        tx.spend();
        rolled_back?;
        Ok(())
    }

    /// A Commit. `Refused` as a commit is.
    pub fn replay_commit<R: Wait>(&mut self, rt: &R, xid: u32, time: i64) -> Result<(), ReplayFault>
        ensures ok { OnOk result
            (self.new.log
            ≡ self.old.log ++ record_after self.old.log (Commit xid time) ∷ []) }
        ensures err { OnErr result (self.new.log ≡ self.old.log) }
        ensures beside { IsBeside self.old self.new }
        ensures publisher { IsPublisher self.new }
    {
        self.begin_up_to(xid)?;
        match self.commit(rt, Tx::new(xid), time) {
            Ok(_) => Ok(()),
            Err((tx, fault)) => {
                tx.spend();
                Err(ReplayFault::Refused(fault))
            }
        }
    }

    /// An Abort. `Refused` as an abort is.
    pub fn replay_abort<R: Wait>(&mut self, rt: &R, xid: u32) -> Result<(), ReplayFault>
        ensures ok { OnOk result
            (self.new.log ≡ self.old.log ++ record_after self.old.log (Abort xid) ∷ []) }
        ensures err { OnErr result (self.new.log ≡ self.old.log) }
        ensures beside { IsBeside self.old self.new }
        ensures publisher { IsPublisher self.new }
    {
        self.begin_up_to(xid)?;
        match self.abort(rt, Tx::new(xid)) {
            Ok(()) => Ok(()),
            Err((tx, fault)) => {
                tx.spend();
                Err(ReplayFault::Refused(fault))
            }
        }
    }

    /// A message outside of all transactions. `Refused` as a note is.
    pub fn replay_note<R: Wait>(&mut self, rt: &R, message: &Message) -> Result<(), ReplayFault>
        ensures ok { OnOk result
            (self.new.log ≡ self.old.log
            ++ record_after self.old.log (Note (Change.Message message.now)) ∷ []) }
        ensures err { OnErr result (self.new.log ≡ self.old.log) }
        ensures beside { IsBeside self.old self.new }
        ensures publisher { IsPublisher self.new }
    {
        self.note(rt, message.prefix.as_str(), message.content.as_slice())?;
        Ok(())
    }

    /// Aborts each transaction in progress, the oldest first. Refused by `Memory` (S11); some of them may be aborted then.
    #[tactic(auto, using(crate::proofs::Aborting::none_yet, crate::proofs::Aborting::shorter))]
    pub fn abort_all<R: Wait>(&mut self, rt: &R) -> Result<(), SessionFault>
        ensures none { OnOk result (self.new.live ≡ []) }
        ensures aborts { OnlyAborts self.old.log self.new.log }
        ensures beside { IsBeside self.old self.new }
        ensures publisher { IsPublisher self.new }
    {
        while let Some(xid) = self.live.first() {
            match self.abort(rt, Tx::new(xid)) {
                Ok(()) => {}
                Err((tx, fault)) => {
                    tx.spend();
                    return Err(fault);
                }
            }
        }
        Ok(())
    }

    /// Begins transactions until one has this xid, as those that the record tells of began before it.
    fn begin_up_to(&mut self, xid: u32) -> Result<(), ReplayFault>
        ensures same { self.new.log ≡ self.old.log }
        ensures beside { IsBeside self.old self.new }
        ensures publisher { IsPublisher self.new }
    {
        for _ in self.next_xid..=xid {
            let tx = self.begin()?;
            tx.spend();
        }
        Ok(())
    }

    /// Makes this xid the innermost one of its transaction, which is answered: the savepoints above it were released.
    fn reach(&mut self, xid: u32) -> Result<u32, ReplayFault>
        ensures innermost { IfOk result (λ top. innermost top self.new.live ≡ xid) }
        ensures same { self.new.log ≡ self.old.log }
        ensures beside { IsBeside self.old self.new }
        ensures publisher { IsPublisher self.new }
    {
        self.begin_up_to(xid)?;
        let Some((top, depth)) = self.live.holder(xid) else {
            return Err(ReplayFault::OutOfOrder);
        };
        if (depth as usize) < self.live.savepoints(top).len() {
            let mut tx = Tx::new(top);
            let released = self.release(&mut tx, depth.saturating_add(1));
            tx.spend();
            released?;
        }
        if self.live.innermost(top) != xid {
            return Err(ReplayFault::OutOfOrder);
        }
        Ok(top)
    }

    /// Makes a change as its session did.
    fn change_again<R: Wait>(
        &mut self,
        rt: &R,
        tx: &mut Tx,
        change: Change,
    ) -> Result<(), ReplayFault>
        ensures ok { OnOk result (self.new ≡ after_change tx.old change self.old) }
        ensures err { OnErr result (self.new ≡ self.old) }
        ensures publisher { IsPublisher self.new }
    {
        match change {
            Change::Insert(oid, row) => self.insert(rt, tx, oid, row)?,
            Change::Update(oid, old, row) => self.update_again(rt, tx, oid, &old, row)?,
            Change::Delete(oid, old) => self.delete_again(rt, tx, oid, &old)?,
            Change::Truncate(oids) => self.truncate(rt, tx, oids.as_slice())?,
            Change::Message(message) => {
                self.message(rt, tx, message.prefix.as_str(), message.content.as_slice())?
            }
        }
        Ok(())
    }

    fn update_again<R: Wait>(
        &mut self,
        rt: &R,
        tx: &mut Tx,
        oid: u32,
        old: &Row,
        row: Row,
    ) -> Result<(), ReplayFault>
        ensures ok { OnOk result
            (self.new ≡ after_change tx.old (Change.Update oid old.now row) self.old) }
        ensures err { OnErr result (self.new ≡ self.old) }
        ensures publisher { IsPublisher self.new }
    {
        let key = self.key_of(oid, old)?;
        if !self.has_row(oid, &key, old) {
            return Err(ReplayFault::OtherRow);
        }
        self.update(rt, tx, oid, &key, row)?;
        Ok(())
    }

    fn delete_again<R: Wait>(
        &mut self,
        rt: &R,
        tx: &mut Tx,
        oid: u32,
        old: &Row,
    ) -> Result<(), ReplayFault>
        ensures ok { OnOk result
            (self.new ≡ after_change tx.old (Change.Delete oid old.now) self.old) }
        ensures err { OnErr result (self.new ≡ self.old) }
        ensures publisher { IsPublisher self.new }
    {
        let key = self.key_of(oid, old)?;
        if !self.has_row(oid, &key, old) {
            return Err(ReplayFault::OtherRow);
        }
        self.delete(rt, tx, oid, &key)?;
        Ok(())
    }

    /// Whether this row has this key.
    fn has_row(&self, oid: u32, key: &Row, row: &Row) -> bool
        ensures row { result ≡ true →
            rows_of self.now.tables self.now.log (record { oid = oid; values = key.now })
            ≡ Some row.now }
        ensures publisher { IsPublisher self.now }
    {
        match self.get(oid, key) {
            Some(found) => found == row,
            None => false,
        }
    }

    /// The key of a table's row; nothing of a table that isn't there.
    fn key_of(&self, oid: u32, row: &Row) -> Result<Row, ReplayFault>
        ensures { IsPublisher self.now }
    {
        let alloc = self.live.allocator();
        let mut key = Vec::new(alloc);
        if let Some(table) = self.catalog().table(oid) {
            for (column, value) in table.columns.as_slice().iter().zip(row.values()) {
                if column.is_key {
                    key.push(value.copy(alloc)?)?;
                }
            }
        }
        Ok(Row::new(key))
    }
}
