//! Lines of a schedule, read as events.

use crate::event::{ConnectionStep, Event, SessionStep};
use crate::fault::WorldFault;
use crate::lines::bad_line::{BadLine, LineDialect, LineRefusal};
use crate::lines::fields::Fields;
use crate::lines::start_options::StartOptions;
use std::alloc::Global;

impl Event {
    /// The event that a line of a schedule spells; the line end is not part of the line. `BadEvent` (V1) where the text is no
    /// such line, `Memory` (V2) where there was no memory for the event.
    pub fn parse(alloc: Global, line: &str) -> Result<Event, WorldFault> {
        match Event::read(alloc, line, LineDialect::Schedule) {
            Ok(event) => Ok(event),
            Err(LineRefusal::Bad(_)) => Err(WorldFault::BadEvent),
            Err(LineRefusal::Memory) => Err(WorldFault::Memory),
        }
    }

    /// The same of a line of this dialect; `Bad` tells what is wrong with it. Or `Memory`.
    pub fn read(alloc: Global, line: &str, dialect: LineDialect) -> Result<Event, LineRefusal> {
        let mut fields = Fields::new(line, dialect);
        let word = fields.word()?;
        let event = event_of(alloc, word, &mut fields)?;
        match fields.end() {
            Ok(()) => Ok(event),
            Err(fault) => {
                // Let go by one call, which keeps the proof short.
                drop(event);
                Err(fault)
            }
        }
    }
}

/// The event whose line begins with this word. Each names a transaction or a connection next, but for a new slot's, a note's and those
/// of the whole log.
fn event_of(alloc: Global, word: &str, fields: &mut Fields<'_>) -> Result<Event, LineRefusal> {
    if word == "slot" {
        return Ok(Event::Slot(fields.slot(alloc)?));
    }
    match word {
        "note" => return note(alloc, fields),
        "forget" => return Ok(Event::Forget),
        "front" => return Ok(Event::Front),
        _ => {}
    }
    let name = fields.name(alloc)?;
    match session_step_of(alloc, word, fields)? {
        Some(step) => Ok(Event::Session(name, step)),
        None => Ok(Event::Connection(name, connection_step_of(alloc, word, fields)?)),
    }
}

/// What the line of a session does after its transaction's name. None: it is no session's.
fn session_step_of(
    alloc: Global,
    word: &str,
    fields: &mut Fields<'_>,
) -> Result<Option<SessionStep>, LineRefusal> {
    let step = match word {
        "begin" => SessionStep::Begin,
        "insert" => insert(alloc, fields)?,
        "update" => update(alloc, fields)?,
        "delete" => delete(alloc, fields)?,
        "truncate" => SessionStep::Truncate(fields.texts(alloc)?),
        "message" => message(alloc, fields)?,
        "savepoint" => SessionStep::Savepoint,
        "rollback" => SessionStep::Rollback(fields.count()?),
        "release" => SessionStep::Release(fields.count()?),
        "commit" => SessionStep::Commit(fields.integer()?),
        "abort" => SessionStep::Abort,
        _ => return Ok(None),
    };
    Ok(Some(step))
}

/// What the line of a connection does after its name.
fn connection_step_of(
    alloc: Global,
    word: &str,
    fields: &mut Fields<'_>,
) -> Result<ConnectionStep, LineRefusal> {
    match word {
        "start" => start(alloc, fields),
        "read" => read(fields),
        "keepalive" => Ok(ConnectionStep::Keepalive(fields.integer()?)),
        "drain" => Ok(ConnectionStep::Drain(fields.count()?)),
        "deliver" => Ok(ConnectionStep::Deliver(fields.count()?)),
        "status" => Ok(ConnectionStep::Status(fields.integer()?)),
        "flushed" => Ok(ConnectionStep::Flushed(fields.number()?)),
        "ack" => Ok(ConnectionStep::Ack),
        "cut" => Ok(ConnectionStep::Cut),
        _ => Err(LineRefusal::Bad(BadLine::Word)),
    }
}

fn insert(alloc: Global, fields: &mut Fields<'_>) -> Result<SessionStep, LineRefusal> {
    let table = fields.text(alloc)?;
    let row = fields.row(alloc)?;
    Ok(SessionStep::Insert(table, row))
}

fn update(alloc: Global, fields: &mut Fields<'_>) -> Result<SessionStep, LineRefusal> {
    let table = fields.text(alloc)?;
    let key = fields.row(alloc)?;
    let row = fields.row(alloc)?;
    Ok(SessionStep::Update(table, key, row))
}

fn delete(alloc: Global, fields: &mut Fields<'_>) -> Result<SessionStep, LineRefusal> {
    let table = fields.text(alloc)?;
    let key = fields.row(alloc)?;
    Ok(SessionStep::Delete(table, key))
}

fn message(alloc: Global, fields: &mut Fields<'_>) -> Result<SessionStep, LineRefusal> {
    let prefix = fields.quoted(alloc)?;
    let content = fields.quoted(alloc)?;
    Ok(SessionStep::Message(prefix, content))
}

fn note(alloc: Global, fields: &mut Fields<'_>) -> Result<Event, LineRefusal> {
    let prefix = fields.quoted(alloc)?;
    let content = fields.quoted(alloc)?;
    Ok(Event::Note(prefix, content))
}

fn start(alloc: Global, fields: &mut Fields<'_>) -> Result<ConnectionStep, LineRefusal> {
    let slot = fields.text(alloc)?;
    let position = fields.position()?;
    let options = StartOptions {
        publications: fields.publications(alloc)?,
        messages: fields.ends_with("messages"),
    };
    Ok(ConnectionStep::Start(slot, position, options))
}

fn read(fields: &mut Fields<'_>) -> Result<ConnectionStep, LineRefusal> {
    let max = fields.count()?;
    let clock = fields.integer()?;
    Ok(ConnectionStep::Read(max, clock))
}
