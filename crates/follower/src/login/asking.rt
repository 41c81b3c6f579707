//! What a client says before its stream begins: a startup, and the commands that create a slot and start a stream.

ghost use Rattle.frames.specs.Frame.{FitsLength};
ghost use Rattle.frames.specs.Front.{front_body};

use crate::fault::{FollowFault, told};
use crate::login::authenticating::authenticate;
use crate::login::login_fault::LoginFault;
use crate::login::startup::{is_name, put_startup};
use crate::options::Options;
use crate::quoting::push_quoted;
use crate::receiving::incoming::Incoming;
use bytes::BytesMut;
use client::ClientFault;
use frames::{Back, DataRow, DataValue, Front, Query, write_front};
use pqformat::Text;
use replcmd::write_position;
use std::alloc::{AllocError, Global};
use std::io::{Read, Write};
use std::random::RandomSource;
use std::sync::Wait;

/// The most bytes of a command's text. PostgreSQL has no memory for longer ones either.
const MOST_TEXT_BYTES: usize = 1_073_741_823;

/// The code by which a server refuses to create what is there (duplicate_object).
pub(crate) const IS_THERE: &str = "42710";

/// What a server's answer ends with.
#[derive(Clone, Copy, PartialEq, Eq)]
pub(crate) enum End {
    ReadyForQuery,
    CopyBothResponse,
}

/// Asks for the stream, up to its first frame. Faults as of `greet`, then of a slot that is created (`Server`, K4, where it is
/// there), then of `start_stream`.
pub(crate) fn ask_for_stream<R: Wait + RandomSource, S: Read + Write>(
    rt: &R,
    alloc: Global,
    incoming: &mut Incoming,
    socket: &mut S,
    options: &Options<'_>,
) -> Result<(), FollowFault> {
    greet(rt, alloc, incoming, socket, options)?;
    if options.create {
        create(rt, alloc, incoming, socket, options.slot)?;
    }
    start_stream(rt, alloc, incoming, socket, options, options.position)
}

/// Says the startup, and proves the password where the server asks for one. `Login` (K9) where that comes to nothing or the user's
/// name can't be one, `Server` (K4) where the server refuses, `Client` where it says what belongs to no answer (K1, K2) or memory
/// is refused (K5), `Connection`, `Silent` or `Ended` (K6).
pub(crate) fn greet<R: Wait + RandomSource, S: Read + Write>(
    rt: &R,
    alloc: Global,
    incoming: &mut Incoming,
    socket: &mut S,
    options: &Options<'_>,
) -> Result<(), FollowFault> {
    say_startup(alloc, socket, options.user)?;
    authenticate(rt, alloc, incoming, socket, options.password)?;
    wait_for(rt, incoming, socket, End::ReadyForQuery)
}

fn say_startup<S: Write>(alloc: Global, socket: &mut S, user: &str) -> Result<(), FollowFault> {
    if !is_name(user) {
        return Err(FollowFault::Login(LoginFault::User));
    }
    let mut startup = BytesMut::new(alloc);
    put_startup(alloc, &mut startup, user)?;
    socket
        .write_all(startup.as_slice())
        .map_err(FollowFault::Connection)
}

/// Asks the server which system it is: the first value of the row that answers IDENTIFY_SYSTEM (PostgreSQL 15, 55.4). `Client` (K2)
/// where it tells none; else faults as of `start_stream`.
pub(crate) fn ask_system<R: Wait, S: Read + Write>(
    rt: &R,
    alloc: Global,
    incoming: &mut Incoming,
    socket: &mut S,
) -> Result<String, FollowFault> {
    send_query(alloc, socket, "IDENTIFY_SYSTEM".to_string(alloc)?)?;
    let mut system = None;
    let answered = take_system(rt, incoming, socket, &mut system);
    match (answered, system) {
        (Err(fault), _) => Err(fault),
        (Ok(()), Some(system)) => Ok(system),
        (Ok(()), None) => Err(FollowFault::Client(ClientFault::Order)),
    }
}

/// Takes the frames of an answer, and keeps the first value of its row.
fn take_system<R: Wait, S: Read>(
    rt: &R,
    incoming: &mut Incoming,
    socket: &mut S,
    system: &mut Option<String>,
) -> Result<(), FollowFault> {
    for _ in rt.forever() {
        let (frame, length) = incoming.next(rt, socket)?;
        incoming.pass(length);
        if is_last(frame, system)? {
            return Ok(());
        }
    }
    Err(FollowFault::Ended)
}

/// Whether the frame ends the answer; of a row the first value is kept.
fn is_last(frame: Back, system: &mut Option<String>) -> Result<bool, FollowFault> {
    match frame {
        Back::DataRow(row) => {
            *system = first_text(row);
            Ok(false)
        }
        other => match end_of(other)? {
            None => Ok(false),
            Some(End::ReadyForQuery) => Ok(true),
            Some(End::CopyBothResponse) => Err(FollowFault::Client(ClientFault::Order)),
        },
    }
}

/// The first value of a row, where it is a text.
fn first_text(row: DataRow) -> Option<String> {
    match row.values.into_vec().into_iter().next() {
        Some(DataValue::Bytes(bytes)) => String::from_utf8(bytes.into_vec()).ok(),
        Some(DataValue::Null) | None => None,
    }
}

fn create<R: Wait, S: Read + Write>(
    rt: &R,
    alloc: Global,
    incoming: &mut Incoming,
    socket: &mut S,
    slot: &str,
) -> Result<(), FollowFault> {
    send_query(alloc, socket, creating(alloc, slot)?)?;
    wait_for(rt, incoming, socket, End::ReadyForQuery)
}

/// Creates the slot, unless there is one (42710, PostgreSQL 15, appendix A). Else faults as of `start_stream`.
pub(crate) fn create_if_absent<R: Wait, S: Read + Write>(
    rt: &R,
    alloc: Global,
    incoming: &mut Incoming,
    socket: &mut S,
    slot: &str,
) -> Result<(), FollowFault> {
    match create(rt, alloc, incoming, socket, slot) {
        Err(FollowFault::Server(said)) => {
            if said.code.as_str() == IS_THERE {
                return wait_for(rt, incoming, socket, End::ReadyForQuery);
            }
            Err(FollowFault::Server(said))
        }
        created => created,
    }
}

/// Asks for the stream from a position on, up to its first frame. `LongCommand` (K6) where the command with these names is too
/// long, `Server` (K4) where the server refuses, `Client` where it says what belongs to no answer (K1, K2) or memory is refused
/// (K5), `Connection`, `Silent` or `Ended` (K6).
pub(crate) fn start_stream<R: Wait, S: Read + Write>(
    rt: &R,
    alloc: Global,
    incoming: &mut Incoming,
    socket: &mut S,
    options: &Options<'_>,
    position: u64,
) -> Result<(), FollowFault> {
    send_query(alloc, socket, starting(alloc, options, position)?)?;
    wait_for(rt, incoming, socket, End::CopyBothResponse)
}

pub(crate) fn creating(alloc: Global, slot: &str) -> Result<String, AllocError> {
    let mut text = "CREATE_REPLICATION_SLOT ".to_string(alloc)?;
    push_quoted(&mut text, slot, '"')?;
    text.push_str(" LOGICAL pgoutput")?;
    Ok(text)
}

fn starting(alloc: Global, options: &Options<'_>, position: u64) -> Result<String, AllocError> {
    let mut text = "START_REPLICATION SLOT ".to_string(alloc)?;
    push_quoted(&mut text, options.slot, '"')?;
    text.push_str(" LOGICAL ")?;
    text.push_str(write_position(alloc, position)?.as_str())?;
    text.push_str(" (proto_version '1', publication_names ")?;
    push_quoted(&mut text, options.publications, '\'')?;
    if options.messages {
        text.push_str(", messages 'true'")?;
    }
    text.push_str(")")?;
    Ok(text)
}

/// Sends a query. `LongCommand` (K6) where its text is too long; else faults as of `send`.
pub(crate) fn send_query<S: Write>(
    alloc: Global,
    socket: &mut S,
    text: String,
) -> Result<(), FollowFault> {
    if text.len() > MOST_TEXT_BYTES {
        return Err(FollowFault::LongCommand);
    }
    let query = Front::Query(Query {
        text: Text::new(text),
    });
    send(alloc, socket, &query)
}

/// Sends a frame. `Connection` (K6), or `Client` (K5) where memory for its bytes is refused.
pub(crate) fn send<S: Write>(
    alloc: Global,
    socket: &mut S,
    frame: &Front,
) -> Result<(), FollowFault>
    requires { FitsLength (front_body frame.now) }
{
    let mut bytes = BytesMut::new(alloc);
    write_front(frame, &mut bytes)?;
    socket
        .write_all(bytes.as_slice())
        .map_err(FollowFault::Connection)
}

/// Passes over the frames of an answer, up to its last. What belongs to no answer is K2.
pub(crate) fn wait_for<R: Wait, S: Read>(
    rt: &R,
    incoming: &mut Incoming,
    socket: &mut S,
    end: End,
) -> Result<(), FollowFault> {
    for _ in rt.forever() {
        let (frame, length) = incoming.next(rt, socket)?;
        incoming.pass(length);
        if let Some(last) = end_of(frame)? {
            return match last == end {
                true => Ok(()),
                false => Err(FollowFault::Client(ClientFault::Order)),
            };
        }
    }
    Err(FollowFault::Ended)
}

/// What the frame ends, if it ends an answer.
pub(crate) fn end_of(frame: Back) -> Result<Option<End>, FollowFault> {
    match frame {
        Back::ErrorResponse(error) => Err(told(error)),
        Back::ReadyForQuery(_) => Ok(Some(End::ReadyForQuery)),
        Back::CopyBothResponse(_) => Ok(Some(End::CopyBothResponse)),
        Back::CopyData(_) | Back::CopyDone => Err(FollowFault::Client(ClientFault::Order)),
        Back::AuthenticationOk
        | Back::ParameterStatus(_)
        | Back::BackendKeyData(_)
        | Back::CommandComplete(_)
        | Back::RowDescription(_)
        | Back::DataRow(_) => Ok(None),
    }
}
