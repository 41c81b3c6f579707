//! The lines of a script: those of sessions, those that steer streams or wait for them, the one that reads passwords again,
//! and the one that ends the server.

use pqformat::Text;
use replcmd::{is_slot_name, parse_position};
use schedule::{BadLine, Event, LineDialect, LineRefusal};
use std::alloc::Global;
use std::time::Duration;

/// One line.
#[derive(Drop)]
pub enum ScriptStep {
    /// A session does this.
    Session(Event),
    /// `commit T`: the transaction of this name commits at the time of the clock.
    CommitNow(Text),
    /// The stream of the slot of this name is steered.
    Steer(Text, Steering),
    Await(Await),
    /// `reload`: those that may connect are read again.
    Reload,
    /// `end`: the server ends.
    End,
}

/// What becomes of the stream of a slot S.
#[derive(Clone, Copy)]
pub enum Steering {
    /// `hold S`: nothing of it is written, until it is let go.
    Hold,
    /// `resume S`
    Resume,
    /// `ask S`: a keepalive asks its client for an answer.
    Ask,
    /// `cut S`, `cut S N`: its connection is cut, after N more bytes.
    Cut(u64),
}

/// `await S POSITION`, `await S stream`: the lines after wait for this, for so many seconds if they are told.
#[derive(Drop)]
pub struct Await {
    pub slot: Text,
    pub until: Until,
    pub patience: Option<Duration>,
}

/// What is waited for.
#[derive(Clone, Copy)]
pub enum Until {
    /// The slot is confirmed at this position or further.
    Confirmed(u64),
    /// A stream of the slot runs.
    Stream,
}

/// In the place of a position.
const STREAM: &str = "stream";

impl ScriptStep {
    /// The step that a line spells, without its line end. `Bad` (V1) where it spells none, or `Memory`.
    pub fn parse(alloc: Global, line: &str) -> Result<ScriptStep, LineRefusal> {
        let (word, rest) = line.split_once(' ').unwrap_or((line, ""));
        match word {
            "end" if rest.is_empty() => Ok(ScriptStep::End),
            "reload" if rest.is_empty() => Ok(ScriptStep::Reload),
            "end" | "reload" => Err(LineRefusal::Bad(BadLine::OneFieldMore)),
            "await" => awaited(alloc, rest),
            "hold" => steer(alloc, rest, Steering::Hold),
            "resume" => steer(alloc, rest, Steering::Resume),
            "ask" => steer(alloc, rest, Steering::Ask),
            "cut" => cut(alloc, rest),
            "commit" if !rest.contains(' ') => commit_now(alloc, line),
            _ => session(alloc, line),
        }
    }
}

fn session(alloc: Global, line: &str) -> Result<ScriptStep, LineRefusal> {
    let event = Event::read(alloc, line, LineDialect::Script)?;
    if is_of_session(&event) {
        Ok(ScriptStep::Session(event))
    } else {
        drop(event);
        Err(LineRefusal::Bad(BadLine::NotHere))
    }
}

fn is_of_session(event: &Event) -> bool {
    match event {
        Event::Session(_, _) | Event::Note(_, _) => true,
        Event::Connection(_, _) | Event::Slot(_) | Event::Forget | Event::Front => false,
    }
}

/// A commit's line without its time is an abort's, but for its word.
fn commit_now(alloc: Global, line: &str) -> Result<ScriptStep, LineRefusal> {
    let name = line.strip_prefix("commit").unwrap_or("");
    let abort = format!(in alloc; "abort{name}")?;
    match Event::read(alloc, abort.as_str(), LineDialect::Script)? {
        Event::Session(name, _) => Ok(ScriptStep::CommitNow(name)),
        _ => Err(LineRefusal::Bad(BadLine::Word)),
    }
}

fn awaited(alloc: Global, rest: &str) -> Result<ScriptStep, LineRefusal> {
    let Some((slot, rest)) = rest.split_once(' ') else {
        return Err(LineRefusal::Bad(BadLine::MissingField));
    };
    let (until, seconds) = match rest.split_once(' ') {
        Some((until, seconds)) => (until, Some(seconds)),
        None => (rest, None),
    };
    Ok(ScriptStep::Await(Await {
        until: until_of(until)?,
        patience: patience_of(seconds)?,
        slot: slot_of(alloc, slot)?,
    }))
}

fn until_of(text: &str) -> Result<Until, LineRefusal> {
    if text == STREAM {
        return Ok(Until::Stream);
    }
    match parse_position(text) {
        Ok(position) => Ok(Until::Confirmed(position)),
        Err(_) => Err(LineRefusal::Bad(BadLine::Position)),
    }
}

fn patience_of(seconds: Option<&str>) -> Result<Option<Duration>, LineRefusal> {
    match seconds {
        Some(text) => Ok(Some(Duration::from_secs(u64::from(seconds_of(text)?)))),
        None => Ok(None),
    }
}

fn seconds_of(text: &str) -> Result<u32, LineRefusal> {
    match text.parse::<u32>() {
        Ok(seconds) if !text.starts_with('+') => Ok(seconds),
        _ => Err(LineRefusal::Bad(BadLine::Number)),
    }
}

fn cut(alloc: Global, rest: &str) -> Result<ScriptStep, LineRefusal> {
    let Some((slot, bytes)) = rest.split_once(' ') else {
        return steer(alloc, rest, Steering::Cut(0));
    };
    match bytes.parse::<u64>() {
        Ok(count) if !bytes.starts_with('+') => steer(alloc, slot, Steering::Cut(count)),
        _ => Err(LineRefusal::Bad(BadLine::Number)),
    }
}

fn steer(alloc: Global, slot: &str, steering: Steering) -> Result<ScriptStep, LineRefusal> {
    Ok(ScriptStep::Steer(slot_of(alloc, slot)?, steering))
}

fn slot_of(alloc: Global, slot: &str) -> Result<Text, LineRefusal> {
    if !is_slot_name(slot) {
        return Err(LineRefusal::Bad(BadLine::SlotName));
    }
    Ok(Text::copy_of(alloc, slot)?)
}
