//! Steps of sessions: each makes the one call of the publisher that it names.

ghost use Rattle.std.specs.Prelude.{◌≡◌, ◌<◌, IfOk, OnErr, is_some, length, map, false, true};
ghost use Rattle.schedule.specs.declared.event.Event.TheVariants.{Session as OfSession};
ghost use Rattle.schedule.specs.Transactions.{xid_of};
ghost use Rattle.schedule.specs.SessionLines.{receipt_due, step_ask, takes_memory};
ghost use Rattle.txlog.specs.Publishing.{after_note, note_refusal};
ghost use Rattle.schedule.specs.Sessions.{Called, Grows, IsNamedAt, IsStepOf, is_within, named_tx, sessions_state};

use crate::event::SessionStep;
use crate::session::{Session, place_of};
use crate::session_answer::SessionAnswer;
use pqformat::Text;
use shared_log::LogName;
use std::alloc::{AllocError, Global};
use std::sync::Wait;
use txlog::{Publisher, Receipt};

/// Does a step in the transaction of this name, which is known, or new where it begins.
pub(crate) fn call<L: LogName, R: Wait>(
    rt: &R,
    publisher: &mut Publisher<L>,
    sessions: &mut Vec<Session>,
    alloc: Global,
    name: &Text,
    step: &SessionStep,
) -> Result<(SessionAnswer, Option<Receipt<L>>), AllocError>
    requires asks { is_some
        (step_ask name.now step.now publisher.old (map named_tx sessions.old.items))
        ≡ true }
    ensures calls { IfOk result
        (λ a. IsStepOf name.now step.now publisher.old sessions.old.items a.0 publisher.new
        sessions.new.items) }
    ensures receipt { IfOk result
        (λ a. a.1
        ≡ receipt_due (OfSession name.now step.now)
        (sessions_state publisher.old sessions.old.items) a.0) }
    ensures err { OnErr result
        (sessions_state publisher.new sessions.new.items
        ≡ sessions_state publisher.old sessions.old.items) }
    ensures memory { OnErr result (takes_memory step.now publisher.old ≡ true) }
    ensures grows { Grows publisher.old.log publisher.new.log }
{
    let answer = match step {
        SessionStep::Begin => begin(publisher, sessions, alloc, name)?,
        SessionStep::Insert(_, _)
        | SessionStep::Update(_, _, _)
        | SessionStep::Delete(_, _)
        | SessionStep::Truncate(_)
        | SessionStep::Message(_, _)
        | SessionStep::Savepoint
        | SessionStep::Rollback(_)
        | SessionStep::Release(_) => act(rt, publisher, sessions, alloc, name, step)?,
        SessionStep::Commit(time) => return Ok(commit(rt, publisher, sessions, name, *time)),
        SessionStep::Abort => abort(rt, publisher, sessions, name),
    };
    Ok((answer, None))
}

/// The place of the transaction of this name.
fn known_place(sessions: &[Session], name: &Text) -> usize
    requires known { is_some (xid_of name.now (map named_tx sessions.now)) ≡ true }
    ensures there { IsNamedAt name.now result sessions.now }
    ensures within { result < length sessions.now }
{
    let Some(place) = place_of(sessions, name) else {
        unreachable!();
    };
    place
}

pub(crate) fn is_known(sessions: &[Session], name: &Text) -> bool
    ensures { result ≡ is_some (xid_of name.now (map named_tx sessions.now)) }
{
    place_of(sessions, name).is_some()
}

/// Room for the session is made before the transaction begins.
fn begin<L: LogName>(
    publisher: &mut Publisher<L>,
    sessions: &mut Vec<Session>,
    alloc: Global,
    name: &Text,
) -> Result<SessionAnswer, AllocError>
    requires fresh { is_some (xid_of name.now (map named_tx sessions.old.items)) ≡ false }
    ensures calls { IfOk result
        (λ a. IsStepOf name.now SessionStep.Begin publisher.old sessions.old.items a publisher.new
        sessions.new.items) }
    ensures err { OnErr result
        (sessions_state publisher.new sessions.new.items
        ≡ sessions_state publisher.old sessions.old.items) }
    ensures grows { Grows publisher.old.log publisher.new.log }
{
    sessions.reserve(1)?;
    let name = name.copy(alloc)?;
    match publisher.begin() {
        Ok(tx) => {
            match sessions.push(Session { name, tx }) {
                Ok(()) => return Ok(SessionAnswer::Done),
                Err(_) => unreachable!(),
            }
        }
        Err(fault) => return Ok(SessionAnswer::Refused(fault)),
    }
}

/// Does a step within a transaction.
fn act<L: LogName, R: Wait>(
    rt: &R,
    publisher: &mut Publisher<L>,
    sessions: &mut Vec<Session>,
    alloc: Global,
    name: &Text,
    step: &SessionStep,
) -> Result<SessionAnswer, AllocError>
    requires known { is_some (xid_of name.now (map named_tx sessions.old.items)) ≡ true }
    requires within { is_within step.now ≡ true }
    ensures calls { IfOk result
        (λ a. IsStepOf name.now step.now publisher.old sessions.old.items a publisher.new
        sessions.new.items) }
    ensures err { OnErr result
        (sessions_state publisher.new sessions.new.items
        ≡ sessions_state publisher.old sessions.old.items) }
    ensures memory { OnErr result (takes_memory step.now publisher.old ≡ true) }
    ensures grows { Grows publisher.old.log publisher.new.log }
{
    let place = known_place(sessions.as_slice(), name);
    sessions[place].act(rt, publisher, alloc, step)
}

/// A refused transaction goes back to its place.
fn commit<L: LogName, R: Wait>(
    rt: &R,
    publisher: &mut Publisher<L>,
    sessions: &mut Vec<Session>,
    name: &Text,
    time: i64,
) -> (SessionAnswer, Option<Receipt<L>>)
    requires known { is_some (xid_of name.now (map named_tx sessions.old.items)) ≡ true }
    ensures calls { IsStepOf name.now (SessionStep.Commit time) publisher.old sessions.old.items
        result.0 publisher.new sessions.new.items }
    ensures receipt { result.1
        ≡ receipt_due (OfSession name.now (SessionStep.Commit time))
        (sessions_state publisher.old sessions.old.items) result.0 }
    ensures grows { Grows publisher.old.log publisher.new.log }
{
    let place = known_place(sessions.as_slice(), name);
    match sessions.remove(place).commit(rt, publisher, time) {
        Ok(receipt) => return (SessionAnswer::Done, Some(receipt)),
        Err((session, fault)) => {
            match sessions.insert(place, session) {
                Ok(()) => return (SessionAnswer::Refused(fault), None),
                Err(_) => unreachable!(),
            }
        }
    }
}

fn abort<L: LogName, R: Wait>(
    rt: &R,
    publisher: &mut Publisher<L>,
    sessions: &mut Vec<Session>,
    name: &Text,
) -> SessionAnswer
    requires known { is_some (xid_of name.now (map named_tx sessions.old.items)) ≡ true }
    ensures calls { IsStepOf name.now SessionStep.Abort publisher.old sessions.old.items result
        publisher.new sessions.new.items }
    ensures grows { Grows publisher.old.log publisher.new.log }
{
    let place = known_place(sessions.as_slice(), name);
    match sessions.remove(place).abort(rt, publisher) {
        Ok(()) => return SessionAnswer::Done,
        Err((session, fault)) => {
            match sessions.insert(place, session) {
                Ok(()) => return SessionAnswer::Refused(fault),
                Err(_) => unreachable!(),
            }
        }
    }
}

/// Puts a message of no transaction into the log.
pub(crate) fn note<L: LogName, R: Wait>(
    rt: &R,
    publisher: &mut Publisher<L>,
    prefix: &Text,
    content: &Text,
) -> SessionAnswer
    ensures called { Called (note_refusal prefix.now content.now publisher.old)
        (after_note prefix.now content.now publisher.old) publisher.old result publisher.new }
    ensures grows { Grows publisher.old.log publisher.new.log }
{
    match publisher.note(rt, prefix.as_str(), content.as_str().as_bytes()) {
        Ok(_) => return SessionAnswer::Done,
        Err(fault) => return SessionAnswer::Refused(fault),
    }
}
