//! Scripts in files, line by line.

use super::awaiting::Waiting;
use super::done::{commit_now, do_event, reload, steer};
use super::fault::ScriptFault;
use super::file::Script;
use super::leaving::leave_all;
use super::outcome::Done;
use super::step::{Await, ScriptStep};
use crate::running::ending::ListenerHandles;
use crate::standard_error::error_log::ErrorLog;
use hub::Hub;
use schedule::Sessions;
use shared_log::LogName;
use slots::SlotName;
use std::alloc::AllocError;
use std::sync::Wait;
use std::time::Clock;

/// How a script has ended.
#[derive(Clone, Copy, Debug, PartialEq, Eq)]
pub enum ScriptEnd {
    LastLine,
    /// By the line `end`, after which it does nothing.
    EndLine,
}

/// Does the steps of a script in order, each session's under the publisher's lock, and tells streams of each commit and each note.
///
/// For a line that is refused, the script's path, the line's number, and code and words are told, as in `load 7 S3 a row with this
/// key exists`, and the script goes on; for one that steered a stream or has waited for it the same with `ok`. Transactions that
/// are in progress at its end are left as they are, so that nothing of them commits. So are they where memory is refused (`Memory`,
/// V2).
pub fn run_steps<L: LogName + SlotName, R: Wait + Clock>(
    rt: &R,
    hub: &Hub<L>,
    listeners: &ListenerHandles,
    script: &Script,
    told: &ErrorLog,
) -> Result<ScriptEnd, ScriptFault> {
    let mut sessions = Sessions::new(hub.alloc());
    let ended = do_steps(rt, hub, listeners, script, &mut sessions, told);
    leave_all(rt, hub, sessions);
    Ok(ended?)
}

fn do_steps<L: LogName + SlotName, R: Wait + Clock>(
    rt: &R,
    hub: &Hub<L>,
    listeners: &ListenerHandles,
    script: &Script,
    sessions: &mut Sessions,
    told: &ErrorLog,
) -> Result<ScriptEnd, AllocError> {
    let name = script.path.as_str();
    for each in script.steps.as_slice() {
        let done = do_step(rt, hub, listeners, sessions, &each.step)?;
        if matches!(done, Done::End) {
            return Ok(ScriptEnd::EndLine);
        }
        told.done(rt, done);
        if done.is_told() {
            told.line(rt, format_args!("{name} {} {done}", each.line));
        }
    }
    Ok(ScriptEnd::LastLine)
}

/// Does a step, and waits for what it awaits. `AllocError` where memory is refused (V2).
pub(crate) fn do_step<L: LogName + SlotName, R: Wait + Clock>(
    rt: &R,
    hub: &Hub<L>,
    listeners: &ListenerHandles,
    sessions: &mut Sessions,
    step: &ScriptStep,
) -> Result<Done, AllocError> {
    match step {
        ScriptStep::Session(event) => do_event(rt, hub, sessions, event),
        ScriptStep::CommitNow(name) => commit_now(rt, hub, sessions, name),
        ScriptStep::Steer(slot, steering) => Ok(steer(rt, hub, slot.as_str(), *steering)),
        ScriptStep::Await(line) => Ok(wait_out(rt, hub, listeners, line)),
        ScriptStep::Reload => Ok(reload(rt, hub, listeners)),
        ScriptStep::End => Ok(Done::End),
    }
}

fn wait_out<L: LogName + SlotName, R: Wait + Clock>(
    rt: &R,
    hub: &Hub<L>,
    listeners: &ListenerHandles,
    line: &Await,
) -> Done {
    let waiting = Waiting::new(rt, line);
    for _ in rt.forever() {
        if let Some(done) = waiting.turn(rt, hub, listeners) {
            return done;
        }
    }
    unreachable!()
}
