//! A session: a transaction by its name.

ghost use Rattle.std.specs.Prelude.{◌≡◌, ◌<◌, map, length, None, IfErr, IfOk, IfSome, OnErr, OnOk, is_some, true};
ghost use Rattle.tables.specs.Tables.{table_named};
ghost use Rattle.txlog.specs.Publishing.{IsRefusalOrMemory, after_change, message_with, receipt_of, after_savepoint, after_rollback, after_release, after_commit, after_abort, message_refusal, savepoint_refusal, rollback_refusal, release_refusal, end_refusal};
ghost use Rattle.schedule.specs.SessionLines.{after_step, delete_refused, deleted_in, insert_refused, inserted_in, oids_named, step_refusal, takes_memory, truncate_refused, truncated_in, update_refused, updated_in};
ghost use Rattle.schedule.specs.Sessions.{Called, Grows, is_within, named_tx, place_from};

use crate::event::{Literal, SessionStep};
use crate::lines::rows::{key_of, row_of};
use crate::session_answer::SessionAnswer;
use catalog::Catalog;
use pqformat::{Items, Text};
use shared_log::LogName;
use std::alloc::{AllocError, Global};
use std::sync::Wait;
use txlog::{Publisher, Receipt, SessionFault, Tx};

/// A transaction in progress, by the name that a line gives it.
pub(crate) struct Session {
    pub(crate) name: Text,
    pub(crate) tx: Tx,
}

impl Session {
    /// Does a step within the transaction.
    pub(crate) fn act<L: LogName, R: Wait>(
        &mut self,
        rt: &R,
        publisher: &mut Publisher<L>,
        alloc: Global,
        step: &SessionStep,
    ) -> Result<SessionAnswer, AllocError>
        requires within { is_within step.now ≡ true }
        ensures called { IfOk result
            (λ a. Called (step_refusal step.now self.old.tx publisher.old)
            (after_step step.now self.old.tx publisher.old) publisher.old a publisher.new) }
        ensures same { self.new ≡ self.old }
        ensures err { OnErr result (publisher.new ≡ publisher.old) }
        ensures memory { OnErr result (takes_memory step.now publisher.old ≡ true) }
        ensures grows { Grows publisher.old.log publisher.new.log }
    {
        match step {
            SessionStep::Insert(table, row) => {
                self.insert(rt, publisher, alloc, table, row.as_slice())
            }
            SessionStep::Update(table, key, row) => {
                self.update(rt, publisher, alloc, table, key.as_slice(), row.as_slice())
            }
            SessionStep::Delete(table, key) => {
                self.delete(rt, publisher, alloc, table, key.as_slice())
            }
            SessionStep::Truncate(names) => self.truncate(rt, publisher, alloc, names.as_slice()),
            SessionStep::Message(prefix, content) => {
                Ok(self.message(rt, publisher, prefix, content))
            }
            SessionStep::Savepoint => Ok(self.savepoint(rt, publisher)),
            SessionStep::Rollback(depth) => Ok(self.rollback_to(rt, publisher, *depth)),
            SessionStep::Release(depth) => Ok(self.release(publisher, *depth)),
            SessionStep::Begin | SessionStep::Commit(_) | SessionStep::Abort => unreachable!(),
        }
    }

    /// Inserts a row. A table that is not known has no columns to read the row by.
    fn insert<L: LogName, R: Wait>(
        &mut self,
        rt: &R,
        publisher: &mut Publisher<L>,
        alloc: Global,
        table: &Text,
        row: &[Literal],
    ) -> Result<SessionAnswer, AllocError>
        ensures called { IfOk result
            (λ a. Called
            (insert_refused (table_named table.now publisher.old.tables) self.old.tx row.now
            publisher.old)
            (inserted_in (table_named table.now publisher.old.tables) self.old.tx row.now
            publisher.old)
            publisher.old a publisher.new) }
        ensures same { self.new ≡ self.old }
        ensures err { OnErr result ((publisher.new ≡ publisher.old)
            × (is_some (table_named table.now publisher.old.tables) ≡ true)) }
        ensures grows { Grows publisher.old.log publisher.new.log }
    {
        let Some(table) = publisher.catalog().named(table.as_str()) else {
            return Ok(SessionAnswer::Refused(SessionFault::UnknownTable));
        };
        let row = row_of(alloc, table.columns.as_slice(), row)?;
        let oid = table.oid;
        match publisher.insert(rt, &mut self.tx, oid, row) {
            Ok(()) => return Ok(SessionAnswer::Done),
            Err(fault) => return Ok(SessionAnswer::Refused(fault)),
        }
    }

    /// Puts a row in the place of the one with this key.
    fn update<L: LogName, R: Wait>(
        &mut self,
        rt: &R,
        publisher: &mut Publisher<L>,
        alloc: Global,
        table: &Text,
        key: &[Literal],
        row: &[Literal],
    ) -> Result<SessionAnswer, AllocError>
        ensures called { IfOk result
            (λ a. Called
            (update_refused (table_named table.now publisher.old.tables) self.old.tx key.now
            row.now publisher.old)
            (updated_in (table_named table.now publisher.old.tables) self.old.tx key.now row.now
            publisher.old)
            publisher.old a publisher.new) }
        ensures same { self.new ≡ self.old }
        ensures err { OnErr result ((publisher.new ≡ publisher.old)
            × (is_some (table_named table.now publisher.old.tables) ≡ true)) }
        ensures grows { Grows publisher.old.log publisher.new.log }
    {
        let Some(table) = publisher.catalog().named(table.as_str()) else {
            return Ok(SessionAnswer::Refused(SessionFault::UnknownTable));
        };
        let key = key_of(alloc, table.columns.as_slice(), key)?;
        let row = row_of(alloc, table.columns.as_slice(), row)?;
        let oid = table.oid;
        match publisher.update(rt, &mut self.tx, oid, &key, row) {
            Ok(()) => return Ok(SessionAnswer::Done),
            Err(fault) => return Ok(SessionAnswer::Refused(fault)),
        }
    }

    fn delete<L: LogName, R: Wait>(
        &mut self,
        rt: &R,
        publisher: &mut Publisher<L>,
        alloc: Global,
        table: &Text,
        key: &[Literal],
    ) -> Result<SessionAnswer, AllocError>
        ensures called { IfOk result
            (λ a. Called
            (delete_refused (table_named table.now publisher.old.tables) self.old.tx key.now
            publisher.old)
            (deleted_in (table_named table.now publisher.old.tables) self.old.tx key.now
            publisher.old)
            publisher.old a publisher.new) }
        ensures same { self.new ≡ self.old }
        ensures err { OnErr result ((publisher.new ≡ publisher.old)
            × (is_some (table_named table.now publisher.old.tables) ≡ true)) }
        ensures grows { Grows publisher.old.log publisher.new.log }
    {
        let Some(table) = publisher.catalog().named(table.as_str()) else {
            return Ok(SessionAnswer::Refused(SessionFault::UnknownTable));
        };
        let key = key_of(alloc, table.columns.as_slice(), key)?;
        let oid = table.oid;
        match publisher.delete(rt, &mut self.tx, oid, &key) {
            Ok(()) => return Ok(SessionAnswer::Done),
            Err(fault) => return Ok(SessionAnswer::Refused(fault)),
        }
    }

    fn truncate<L: LogName, R: Wait>(
        &mut self,
        rt: &R,
        publisher: &mut Publisher<L>,
        alloc: Global,
        names: &[Text],
    ) -> Result<SessionAnswer, AllocError>
        ensures called { IfOk result
            (λ a. Called
            (truncate_refused (oids_named publisher.old.tables names.now) self.old.tx
            publisher.old)
            (truncated_in (oids_named publisher.old.tables names.now) self.old.tx publisher.old)
            publisher.old a publisher.new) }
        ensures same { self.new ≡ self.old }
        ensures err { OnErr result (publisher.new ≡ publisher.old) }
        ensures grows { Grows publisher.old.log publisher.new.log }
    {
        let Some(oids) = oids_of(alloc, publisher.catalog(), names)? else {
            return Ok(SessionAnswer::Refused(SessionFault::UnknownTable));
        };
        match publisher.truncate(rt, &mut self.tx, oids.as_slice()) {
            Ok(()) => return Ok(SessionAnswer::Done),
            Err(fault) => return Ok(SessionAnswer::Refused(fault)),
        }
    }

    fn message<L: LogName, R: Wait>(
        &mut self,
        rt: &R,
        publisher: &mut Publisher<L>,
        prefix: &Text,
        content: &Text,
    ) -> SessionAnswer
        ensures called { Called (message_refusal self.old.tx prefix.now content.now publisher.old)
            (after_change self.old.tx
            (message_with prefix.now content.now) publisher.old) publisher.old
            result publisher.new }
        ensures same { self.new ≡ self.old }
        ensures grows { Grows publisher.old.log publisher.new.log }
    {
        let content = content.as_str().as_bytes();
        match publisher.message(rt, &mut self.tx, prefix.as_str(), content) {
            Ok(()) => return SessionAnswer::Done,
            Err(fault) => return SessionAnswer::Refused(fault),
        }
    }

    fn savepoint<L: LogName, R: Wait>(
        &mut self,
        rt: &R,
        publisher: &mut Publisher<L>,
    ) -> SessionAnswer
        ensures called { Called (savepoint_refusal self.old.tx publisher.old)
            (after_savepoint self.old.tx publisher.old) publisher.old result publisher.new }
        ensures same { self.new ≡ self.old }
        ensures grows { Grows publisher.old.log publisher.new.log }
    {
        match publisher.savepoint(rt, &mut self.tx) {
            Ok(_) => return SessionAnswer::Done,
            Err(fault) => return SessionAnswer::Refused(fault),
        }
    }

    fn rollback_to<L: LogName, R: Wait>(
        &mut self,
        rt: &R,
        publisher: &mut Publisher<L>,
        depth: u32,
    ) -> SessionAnswer
        ensures called { Called (rollback_refusal self.old.tx depth publisher.old)
            (after_rollback self.old.tx depth publisher.old) publisher.old result publisher.new }
        ensures same { self.new ≡ self.old }
        ensures grows { Grows publisher.old.log publisher.new.log }
    {
        match publisher.rollback_to(rt, &mut self.tx, depth) {
            Ok(()) => return SessionAnswer::Done,
            Err(fault) => return SessionAnswer::Refused(fault),
        }
    }

    fn release<L: LogName>(&mut self, publisher: &mut Publisher<L>, depth: u32) -> SessionAnswer
        ensures called { Called (release_refusal self.old.tx depth publisher.old)
            (after_release self.old.tx depth publisher.old) publisher.old result publisher.new }
        ensures same { self.new ≡ self.old }
        ensures grows { Grows publisher.old.log publisher.new.log }
    {
        match publisher.release(&mut self.tx, depth) {
            Ok(()) => return SessionAnswer::Done,
            Err(fault) => return SessionAnswer::Refused(fault),
        }
    }

    /// A refused transaction is given back.
    pub(crate) fn commit<L: LogName, R: Wait>(
        self,
        rt: &R,
        publisher: &mut Publisher<L>,
        time: i64,
    ) -> Result<Receipt<L>, (Session, SessionFault)>
        ensures ok { OnOk result
            ((end_refusal self.tx publisher.old ≡ None)
            × (publisher.new ≡ after_commit self.tx time publisher.old)) }
        ensures receipt { IfOk result (λ receipt. receipt ≡ receipt_of self.tx time publisher.old) }
        ensures err { IfErr result
            (λ back. (back.0 ≡ self) × IsRefusalOrMemory (end_refusal self.tx publisher.old) back.1
            × (publisher.new ≡ publisher.old)) }
        ensures grows { Grows publisher.old.log publisher.new.log }
    {
        let Session { name, tx } = self;
        match publisher.commit(rt, tx, time) {
            Ok(receipt) => return Ok(receipt),
            Err((tx, fault)) => return Err((Session { name, tx }, fault)),
        }
    }

    /// A refused transaction is given back.
    pub(crate) fn abort<L: LogName, R: Wait>(
        self,
        rt: &R,
        publisher: &mut Publisher<L>,
    ) -> Result<(), (Session, SessionFault)>
        ensures ok { OnOk result
            ((end_refusal self.tx publisher.old ≡ None)
            × (publisher.new ≡ after_abort self.tx publisher.old)) }
        ensures err { IfErr result
            (λ back. (back.0 ≡ self) × IsRefusalOrMemory (end_refusal self.tx publisher.old) back.1
            × (publisher.new ≡ publisher.old)) }
        ensures grows { Grows publisher.old.log publisher.new.log }
    {
        let Session { name, tx } = self;
        match publisher.abort(rt, tx) {
            Ok(()) => return Ok(()),
            Err((tx, fault)) => return Err((Session { name, tx }, fault)),
        }
    }
}

/// The OIDs of the tables of these names, in order, unless one of them is not known.
fn oids_of(
    alloc: Global,
    catalog: &Catalog,
    names: &[Text],
) -> Result<Option<Items<u32>>, AllocError>
    ensures { IfOk result (λ oids. oids ≡ oids_named catalog.now names.now) }
{
    let mut oids = Vec::with_capacity(alloc, names.len())?;
    for name in names {
        match catalog.named(name.as_str()) {
            Some(table) => oids.push(table.oid)?,
            None => return Ok(None),
        }
    }
    Ok(Some(Items::new(oids)))
}

/// The place of the transaction of this name.
pub(crate) fn place_of(sessions: &[Session], name: &Text) -> Option<usize>
    ensures place { result ≡ place_from 0 name.now (map named_tx sessions.now) }
    ensures within { IfSome result (λ place. place < length sessions.now) }
{
    for (place, session) in sessions.iter().enumerate() {
        if session.name.as_str() == name.as_str() {
            return Some(place);
        }
    }
    None
}

/// Leaves every transaction as it is.
pub(crate) fn leave_all<L: LogName>(publisher: &Publisher<L>, mut sessions: Vec<Session>) {
    while let Some(session) = sessions.pop() {
        let Session { name: _, tx } = session;
        publisher.leave(tx);
    }
    sessions.destroy_empty();
}
