//! How a step is done beside connections.

use super::outcome::Done;
use super::refusal::ScriptRefusal;
use super::step::Steering;
use crate::running::ending::ListenerHandles;
use copyboth::clock_now;
use hub::{DiskFault, Hub, Left, SteerFault};
use pqformat::Text;
use schedule::{Event, SessionAnswer, SessionStep, Sessions, WorldFault};
use shared_log::LogName;
use slots::SlotName;
use std::alloc::AllocError;
use std::sync::Wait;
use std::time::Clock;
use txlog::Receipt;

pub(crate) fn steer<L: LogName + SlotName, R: Wait>(
    rt: &R,
    hub: &Hub<L>,
    slot: &str,
    steering: Steering,
) -> Done {
    let steered = match steering {
        Steering::Hold => hub.hold_stream(rt, slot),
        Steering::Resume => hub.resume_stream(rt, slot),
        Steering::Ask => hub.ask_stream(rt, slot),
        Steering::Cut(bytes) => hub.cut_stream(rt, slot, bytes),
    };
    match steered {
        Ok(()) => Done::Steered,
        Err(SteerFault::Missing) => Done::Refused(ScriptRefusal::NoSlot),
    }
}

/// Reads those that may connect again.
pub(crate) fn reload<L, R>(rt: &R, hub: &Hub<L>, listeners: &ListenerHandles) -> Done
where
    L: LogName + SlotName,
    R: Wait,
{
    let Some(file) = &listeners.passwords else {
        return Done::Refused(ScriptRefusal::NoPasswords);
    };
    match file.users(hub.alloc()) {
        Ok(users) => {
            hub.replace_users(rt, users);
            Done::Steered
        }
        Err(fault) => Done::Refused(ScriptRefusal::Users(fault)),
    }
}

/// Commits the transaction of this name at the time of the clock, or at 0 where it can't be read. `AllocError` as of `do_event`.
pub(crate) fn commit_now<L: LogName + SlotName, R: Wait + Clock>(
    rt: &R,
    hub: &Hub<L>,
    sessions: &mut Sessions,
    name: &Text,
) -> Result<Done, AllocError> {
    let name = name.copy(hub.alloc())?;
    let event = Event::Session(name, SessionStep::Commit(clock_now(rt, 0)));
    do_event(rt, hub, sessions, &event)
}

/// Does a session's line under the publisher's lock, once there is room for it where there can be. `AllocError` where memory to
/// keep its transaction is refused (V2).
pub(crate) fn do_event<'h, L: LogName + SlotName, R: Wait + Clock>(
    rt: &'h R,
    hub: &'h Hub<L>,
    sessions: &mut Sessions,
    event: &Event,
) -> Result<Done, AllocError> {
    if ends_something(event) && hub.disk_fault(rt).is_some() {
        abort_of(rt, hub, sessions, event)?;
        return Ok(Done::Refused(ScriptRefusal::Disk(DiskFault::Failed)));
    }
    let mut writing = hub.write(rt);
    let line = sessions.line(rt, &mut writing.publisher, event);
    let (done, left) = done_by(event, line, writing.publisher.kept());
    match (writing.end(left), done) {
        (Some(fault), Ok(Done::Commit { .. } | Done::Line)) => {
            Ok(Done::Refused(ScriptRefusal::Disk(fault)))
        }
        (_, done) => done,
    }
}

/// A commit that the disk can't take aborts its transaction.
fn abort_of<'h, L: LogName + SlotName, R: Wait + Clock>(
    rt: &'h R,
    hub: &'h Hub<L>,
    sessions: &mut Sessions,
    event: &Event,
) -> Result<(), AllocError> {
    let Event::Session(name, _) = event else {
        return Ok(());
    };
    let abort = Event::Session(name.copy(hub.alloc())?, SessionStep::Abort);
    let mut writing = hub.write(rt);
    let line = sessions.line(rt, &mut writing.publisher, &abort);
    let (_, left) = done_by(&abort, line, writing.publisher.kept());
    let _ = writing.end(left);
    Ok(())
}

/// Whether it is a commit, or a message outside of transactions.
fn ends_something(event: &Event) -> bool {
    matches!(
        event,
        Event::Note(_, _) | Event::Session(_, SessionStep::Commit(_))
    )
}

/// What a session's line comes to, in a log of which so many records are kept, and what it leaves for streams.
fn done_by<L: LogName>(
    event: &Event,
    line: Result<(SessionAnswer, Option<Receipt<L>>), WorldFault>,
    kept: usize,
) -> (Result<Done, AllocError>, Left<L>) {
    match line {
        Ok((SessionAnswer::Refused(fault), _)) => {
            (
                Ok(Done::Refused(ScriptRefusal::Session(fault))),
                Left::Nothing,
            )
        }
        Ok((SessionAnswer::Done, Some(receipt))) => {
            let end = receipt.end();
            (Ok(Done::Commit { end, kept }), Left::Commit(receipt))
        }
        Ok((SessionAnswer::Done, None)) => (Ok(Done::Line), left_by(event)),
        Err(WorldFault::BadEvent) => (Ok(Done::Refused(not_now(event))), Left::Nothing),
        Err(WorldFault::Memory | WorldFault::NoEntry) => (Err(AllocError), Left::Nothing),
    }
}

/// A note or an abort that was done leaves where the log ends; other lines leave nothing.
fn left_by<L: LogName>(event: &Event) -> Left<L> {
    match event {
        Event::Note(_, _) => Left::Note,
        Event::Session(_, SessionStep::Abort) => Left::Abort,
        _ => Left::Nothing,
    }
}

/// Why a session's line can't be done where it stands.
fn not_now(event: &Event) -> ScriptRefusal {
    match event {
        Event::Session(_, SessionStep::Begin) => ScriptRefusal::SecondBegin,
        _ => ScriptRefusal::NoTransaction,
    }
}
