//! Lines from outside: done as they come, and answered one by one.

use super::awaiting::{Waiting, unmet};
use super::done::steer;
use super::fault::ScriptFault;
use super::input_lines::{InputLine, InputLines};
use super::leaving::leave_all;
use super::lines::{content_of, is_passed_over};
use super::outcome::Done;
use super::refusal::{ScriptRefusal, Unmet};
use super::step::{Await, ScriptStep};
use super::steps::{ScriptEnd, do_step};
use crate::running::ending::ListenerHandles;
use crate::standard_error::error_log::ErrorLog;
use hub::Hub;
use schedule::{BadLine, LineRefusal, Sessions};
use shared_log::LogName;
use slots::SlotName;
use std::alloc::{AllocError, Global};
use std::collections::VecDeque;
use std::io::Print;
use std::sync::Wait;
use std::time::Clock;

/// How many lines are looked at ahead of one that waits.
const MOST_KEPT: usize = 1000;

/// What lines from outside stand on.
#[derive(Drop)]
pub struct Driven<'a, L: LogName + SlotName, R> {
    pub rt: &'a R,
    pub hub: &'a Hub<L>,
    pub listeners: &'a ListenerHandles,
    pub input: &'a InputLines,
    pub told: &'a ErrorLog,
    /// Whether the end of the input is that of the server.
    pub ends_with_input: bool,
}

/// A line that isn't answered yet.
#[derive(Drop)]
enum PendingLine {
    Step(ScriptStep),
    /// It was done before those in front of it, or is no line.
    Done(Done),
}

/// Lines that came while one waits.
#[derive(Drop)]
struct Kept {
    lines: VecDeque<PendingLine>,
    /// The server is to end, so nothing is awaited any more.
    is_ending: bool,
}

/// Does lines as they come, each session's under the publisher's lock, and tells streams of each commit and each note.
///
/// Each line is answered by one, in their order: `ok`; after a commit with the position at which its record ends, as in
/// `ok 0/1000050`; or the code of its refusal and words, V1 where it is no such line. Empty lines and those that begin with `#` are
/// passed over. While a line waits, those after it that steer are done as they come, and `end` and, where the server ends with
/// its input, the end of the input end the wait. `end` is answered by `ok`, and no line is done after it. Transactions that are in
/// progress then, or where the input ends, are left as they are, so that nothing of them commits. So are they where no more lines
/// can be read (`Lines`) or no answer can be written (`Answers`), or memory is refused (`Memory`, V2).
pub fn run_input<L: LogName + SlotName, R: Wait + Clock, O: Print>(
    driven: &Driven<'_, L, R>,
    output: &O,
) -> Result<ScriptEnd, ScriptFault> {
    let mut sessions = Sessions::new(driven.hub.alloc());
    let mut kept = Kept {
        lines: VecDeque::new(driven.hub.alloc()),
        is_ending: false,
    };
    let ended = answer_lines(driven, &mut sessions, &mut kept, output);
    leave_all(driven.rt, driven.hub, sessions);
    ended
}

fn answer_lines<L: LogName + SlotName, R: Wait + Clock, O: Print>(
    driven: &Driven<'_, L, R>,
    sessions: &mut Sessions,
    kept: &mut Kept,
    output: &O,
) -> Result<ScriptEnd, ScriptFault> {
    for _ in driven.rt.forever() {
        let Some(pending) = next_line(driven, kept)? else {
            return Ok(ScriptEnd::LastLine);
        };
        let done = do_pending(driven, sessions, kept, &pending);
        // What a line holds would be let go on each way out.
        drop(pending);
        let done = done?;
        answer(driven, done, output)?;
        if matches!(done, Done::End) {
            return Ok(ScriptEnd::EndLine);
        }
    }
    unreachable!()
}

/// Answers what a line came to.
fn answer<L: LogName + SlotName, R: Wait, O: Print>(
    driven: &Driven<'_, L, R>,
    done: Done,
    output: &O,
) -> Result<(), ScriptFault> {
    driven.told.done(driven.rt, done);
    println!(output; "{done}").map_err(ScriptFault::Answers)
}

/// The next line that is answered. None: no more come.
fn next_line<L: LogName + SlotName, R: Wait>(
    driven: &Driven<'_, L, R>,
    kept: &mut Kept,
) -> Result<Option<PendingLine>, ScriptFault> {
    if let Some(pending) = kept.lines.pop_front() {
        return Ok(Some(pending));
    }
    for _ in driven.rt.forever() {
        match driven.input.next(driven.rt) {
            InputLine::Over => return Ok(None),
            InputLine::Failed(kind) => return Err(ScriptFault::Lines(kind)),
            came => {
                if let Some(pending) = pending_of(driven.hub.alloc(), came)? {
                    return Ok(Some(pending));
                }
            }
        }
    }
    unreachable!()
}

/// What is to be answered of a line that came, if anything is.
fn pending_of(alloc: Global, came: InputLine) -> Result<Option<PendingLine>, AllocError> {
    match came {
        InputLine::Line(text) => pending_in(alloc, content_of(text.as_str())),
        InputLine::NotUtf8 => Ok(Some(bad(BadLine::NotUtf8))),
        InputLine::Over | InputLine::Failed(_) => Ok(None),
    }
}

fn pending_in(alloc: Global, content: &str) -> Result<Option<PendingLine>, AllocError> {
    if is_passed_over(content) {
        return Ok(None);
    }
    match ScriptStep::parse(alloc, content) {
        Ok(step) => Ok(Some(PendingLine::Step(step))),
        Err(LineRefusal::Bad(why)) => Ok(Some(bad(why))),
        Err(LineRefusal::Memory) => Err(AllocError),
    }
}

fn bad(why: BadLine) -> PendingLine {
    PendingLine::Done(Done::Refused(ScriptRefusal::Line(why)))
}

fn do_pending<L: LogName + SlotName, R: Wait + Clock>(
    driven: &Driven<'_, L, R>,
    sessions: &mut Sessions,
    kept: &mut Kept,
    pending: &PendingLine,
) -> Result<Done, AllocError> {
    match pending {
        PendingLine::Done(done) => Ok(*done),
        PendingLine::Step(ScriptStep::Await(line)) => wait_out(driven, kept, line),
        PendingLine::Step(step) => do_step(driven.rt, driven.hub, driven.listeners, sessions, step),
    }
}

/// Waits, and lets lines that steer pass meanwhile.
fn wait_out<L: LogName + SlotName, R: Wait + Clock>(
    driven: &Driven<'_, L, R>,
    kept: &mut Kept,
    line: &Await,
) -> Result<Done, AllocError> {
    let waiting = Waiting::new(driven.rt, line);
    for _ in driven.rt.forever() {
        if let Some(done) = waiting.turn(driven.rt, driven.hub, driven.listeners) {
            return Ok(done);
        }
        let_pass(driven, kept)?;
        if kept.is_ending {
            return Ok(unmet(Unmet::Ending));
        }
    }
    unreachable!()
}

/// Keeps the lines that have come, and does those that steer.
fn let_pass<L: LogName + SlotName, R: Wait>(
    driven: &Driven<'_, L, R>,
    kept: &mut Kept,
) -> Result<(), AllocError> {
    for _ in kept.lines.len()..MOST_KEPT {
        match driven.input.next_if_any(driven.rt) {
            None => return Ok(()),
            Some(InputLine::Over | InputLine::Failed(_)) => {
                kept.is_ending = kept.is_ending || driven.ends_with_input;
                return Ok(());
            }
            Some(came) => {
                if let Some(pending) = pending_of(driven.hub.alloc(), came)? {
                    keep(driven, kept, pending)?;
                }
            }
        }
    }
    Ok(())
}

fn keep<L: LogName + SlotName, R: Wait>(
    driven: &Driven<'_, L, R>,
    kept: &mut Kept,
    pending: PendingLine,
) -> Result<(), AllocError> {
    let pending = passed(driven, &mut kept.is_ending, pending);
    Ok(kept.lines.push_back(pending)?)
}

/// What is left to do of a line that came while one waits: one that steers is done.
fn passed<L: LogName + SlotName, R: Wait>(
    driven: &Driven<'_, L, R>,
    is_ending: &mut bool,
    pending: PendingLine,
) -> PendingLine {
    match pending {
        PendingLine::Step(ScriptStep::Steer(slot, steering)) => {
            PendingLine::Done(steer(driven.rt, driven.hub, slot.as_str(), steering))
        }
        PendingLine::Step(ScriptStep::End) => {
            *is_ending = true;
            PendingLine::Step(ScriptStep::End)
        }
        other => other,
    }
}
