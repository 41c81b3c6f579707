//! Sessions, which do the lines of a script.

ghost use Rattle.std.specs.Prelude.{◌≡◌, ◌≢◌, ◌↔◌, [], Err, IfOk, IsNone, OnErr, is_some, not, true};
ghost use Rattle.txlog.specs.Publishing.{PublisherState};
ghost use Rattle.schedule.specs.Transactions.{xid_of};
ghost use Rattle.schedule.specs.SessionLines.{IsCalled, IsLine, ask_of, line_takes_memory, receipt_due, state_of, step_ask, takes_memory};
ghost use Rattle.schedule.specs.Sessions.{Grows};

use crate::calls::{call, is_known, note};
use crate::event::{Event, SessionStep};
use crate::fault::WorldFault;
use crate::session::{Session, leave_all};
use crate::session_answer::SessionAnswer;
use pqformat::Text;
use shared_log::LogName;
use std::alloc::Global;
use std::marker::Model;
use std::sync::Wait;
use txlog::{Publisher, Receipt};

/// Transactions in progress, by the names that lines give them. They are not `Drop`: `leave_all` ends them.
pub struct Sessions {
    alloc: Global,
    live: Vec<Session>,
}

impl Model for Sessions {
    ghost use Rattle.std.specs.Prelude.{List, map};
    ghost use Rattle.schedule.specs.Transactions.{NamedTx};
    ghost use Rattle.schedule.specs.Sessions.{named_tx};

    ghost Value = { List NamedTx };

    ghost view = { λ s. map named_tx s.live.items };
}

impl Sessions {
    /// No transaction. It takes no memory.
    pub fn new(alloc: Global) -> Self
        ensures { result ≡ [] }
    {
        Sessions {
            alloc,
            live: Vec::new(alloc),
        }
    }

    /// Whether a transaction of this name is in progress.
    pub fn has(&self, name: &Text) -> bool
        ensures { result ≡ is_some (xid_of name.now self.now) }
    {
        is_known(self.live.as_slice(), name)
    }

    /// Whether the step can't be done now: its transaction is unknown, or begins a second time.
    pub fn refuses(&self, name: &Text, step: &SessionStep) -> bool
        ensures { (publisher : PublisherState) →
            result ≡ not (is_some (step_ask name.now step.now publisher self.now)) }
    {
        match step {
            SessionStep::Begin => self.has(name),
            SessionStep::Insert(_, _)
            | SessionStep::Update(_, _, _)
            | SessionStep::Delete(_, _)
            | SessionStep::Truncate(_)
            | SessionStep::Message(_, _)
            | SessionStep::Savepoint
            | SessionStep::Rollback(_)
            | SessionStep::Release(_)
            | SessionStep::Commit(_)
            | SessionStep::Abort => !self.has(name),
        }
    }

    /// Does a session's line, and answers what a commit tells too; a note tells nothing so. `BadEvent` (V1) exactly where the
    /// line is of another kind, its name is unknown, or it begins a second time; else `Memory` (V2) where memory is refused for
    /// what the line keeps. Either changes nothing.
    pub fn line<L: LogName, R: Wait>(
        &mut self,
        rt: &R,
        publisher: &mut Publisher<L>,
        event: &Event,
    ) -> Result<(SessionAnswer, Option<Receipt<L>>), WorldFault>
        ensures done { IfOk result
            (λ made. IsLine event.now (state_of publisher.old self.old) made.0
            (state_of publisher.new self.new)) }
        ensures receipt { IfOk result
            (λ made. made.1 ≡ receipt_due event.now (state_of publisher.old self.old) made.0) }
        ensures bad { (result ≡ Err WorldFault.BadEvent)
            ↔ IsNone (ask_of event.now publisher.old self.old) }
        ensures entered { result ≢ Err WorldFault.NoEntry }
        ensures memory { result ≡ Err WorldFault.Memory →
            line_takes_memory event.now publisher.old ≡ true }
        ensures err { OnErr result
            (state_of publisher.new self.new ≡ state_of publisher.old self.old) }
        ensures grows { Grows publisher.old.log publisher.new.log }
    {
        match event {
            Event::Session(name, step) => self.step(rt, publisher, name, step),
            Event::Note(prefix, content) => Ok((note(rt, publisher, prefix, content), None)),
            Event::Connection(_, _) | Event::Slot(_) | Event::Forget | Event::Front => {
                Err(WorldFault::BadEvent)
            }
        }
    }

    fn step<L: LogName, R: Wait>(
        &mut self,
        rt: &R,
        publisher: &mut Publisher<L>,
        name: &Text,
        step: &SessionStep,
    ) -> Result<(SessionAnswer, Option<Receipt<L>>), WorldFault>
        ensures done { IfOk result
            (λ made. IsCalled (step_ask name.now step.now publisher.old self.old)
            (state_of publisher.old self.old) made.0 (state_of publisher.new self.new)) }
        ensures receipt { IfOk result
            (λ made. made.1
            ≡ receipt_due (Event.Session name.now step.now) (state_of publisher.old self.old)
            made.0) }
        ensures bad { (result ≡ Err WorldFault.BadEvent)
            ↔ IsNone (step_ask name.now step.now publisher.old self.old) }
        ensures entered { result ≢ Err WorldFault.NoEntry }
        ensures memory { result ≡ Err WorldFault.Memory →
            takes_memory step.now publisher.old ≡ true }
        ensures err { OnErr result
            (state_of publisher.new self.new ≡ state_of publisher.old self.old) }
        ensures grows { Grows publisher.old.log publisher.new.log }
    {
        if self.refuses(name, step) {
            return Err(WorldFault::BadEvent);
        }
        Ok(call(rt, publisher, &mut self.live, self.alloc, name, step)?)
    }

    /// Leaves every transaction as it is: nothing of them commits.
    pub fn leave_all<L: LogName>(self, publisher: &Publisher<L>) {
        let Sessions { alloc: _, live } = self;
        leave_all(publisher, live);
    }
}
