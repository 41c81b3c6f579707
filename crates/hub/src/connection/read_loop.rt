//! The reading thread of a connection: bytes in, words to the mailbox.

ghost use Rattle.std.specs.Prelude.{◌≡◌};
ghost use Rattle.connections.specs.Guarding.{guarded_phase};

use crate::connection::backend::HubBackend;
use crate::connection::session_copies::SessionCopies;
use crate::stream::new_stream::NewStream;
use bytes::BytesMut;
use connections::{
    Came, ConnectionEnd, ConnectionMailbox, GuardedConnection, Patience, ServerObserver, read_more,
};
use pqformat::Text;
use server::Phase;
use server_state::ServerState;
use shared_log::LogName;
use slots::SlotName;
use std::mem;
use std::net::TcpStream;
use std::random::RandomSource;
use std::sync::Wait;
use std::time::Clock;

/// How far a connection is.
#[derive(Drop)]
struct ReadState {
    connection: GuardedConnection,
    /// How many commands came.
    commands: u32,
    /// The phase that the writing thread knows of.
    posted: Phase,
    /// The latch of the stream that runs.
    latch: Option<usize>,
    /// The client was asked for an answer, and nothing came since.
    is_asked: bool,
    /// For how long its reads wait.
    patience: Patience,
    /// Who has proved its password, where one was asked.
    user: Option<Text>,
    copies: SessionCopies,
}

/// What a reading thread is passed.
#[derive(Drop)]
pub(crate) struct ReadLoop<'h, L: LogName + SlotName, R: Wait, G: ServerObserver> {
    pub rt: &'h R,
    pub server_state: &'h ServerState<L>,
    pub mailbox: &'h ConnectionMailbox<NewStream<L>>,
    pub observer: &'h G,
    pub number: u32,
    pub socket: &'h TcpStream,
}

/// Answers what comes, until the connection is over, and answers why it is.
pub(crate) fn read_line<L, R, G>(read: &ReadLoop<'_, L, R, G>) -> ConnectionEnd
where
    L: LogName + SlotName,
    R: Wait + Clock + RandomSource,
    G: ServerObserver,
{
    match read.server_state.connection(read.rt, read.number) {
        Ok(connection) => read_from(read, connection),
        Err(end) => {
            read.server_state.leave_strangers();
            read.mailbox.pass(read.rt, Phase::Closed);
            end
        }
    }
}

/// The same from the first byte on.
fn read_from<L: LogName + SlotName, R: Wait + Clock, G: ServerObserver>(
    read: &ReadLoop<'_, L, R, G>,
    connection: GuardedConnection,
) -> ConnectionEnd {
    let mut state = ReadState {
        connection,
        commands: 0,
        posted: Phase::Startup,
        latch: None,
        is_asked: false,
        patience: Patience::new(
            read.server_state.startup_until(read.rt),
            read.server_state.silence(),
        ),
        user: None,
        copies: SessionCopies::none(),
    };
    let mut end = ConnectionEnd::Client;
    for _ in read.rt.forever() {
        if let Err(why) = read_step(read, &mut state) {
            end = why;
            break;
        }
    }
    if !state.connection.is_let_in() {
        read.server_state.leave_strangers();
    }
    state.copies.release(read.rt, read.server_state);
    read.mailbox.pass(read.rt, Phase::Closed);
    tell_work(read, state.latch);
    if end == ConnectionEnd::Client && read.server_state.is_ending() {
        return ConnectionEnd::ServerEnd;
    }
    end
}

/// Answers one startup or frame of what came, or reads more, or ends a stream that stops.
fn read_step<L: LogName + SlotName, R: Wait + Clock, G: ServerObserver>(
    read: &ReadLoop<'_, L, R, G>,
    state: &mut ReadState,
) -> Result<(), ConnectionEnd> {
    match state.connection.phase() {
        Phase::Stopping => return stop(read, state),
        Phase::Closed => return Err(ConnectionEnd::Client),
        Phase::Startup | Phase::Idle | Phase::Streaming => {}
    }
    if state.connection.has_command() {
        state.commands = state.commands.saturating_add(1);
        read.observer.before(read.number, state.commands);
    }
    if answer(read, state)? {
        return Ok(());
    }
    let phase = state.connection.phase();
    state.patience.limit_wait(read.rt, read.socket, phase)?;
    let came = read_more(&mut state.connection, read.socket)?;
    state.patience.note(came);
    match came {
        Came::Bytes => {
            state.is_asked = false;
            Ok(())
        }
        Came::Nothing => wait_on(read, state),
        Came::Signal => Ok(()),
    }
}

/// Nothing came for half of the time for which the client of a stream may be silent: at first it is asked for an answer, and
/// then it is lost. Whoever has no stream may be silent, and whose stream is held on purpose, since a question would be held too.
fn wait_on<L: LogName + SlotName, R: Wait, G: ServerObserver>(
    read: &ReadLoop<'_, L, R, G>,
    state: &mut ReadState,
) -> Result<(), ConnectionEnd> {
    let Some(latch) = state.latch else {
        return Ok(());
    };
    if read.server_state.holds_stream(read.rt, latch) {
        state.is_asked = false;
        return Ok(());
    }
    if state.is_asked {
        return Err(ConnectionEnd::Silent);
    }
    state.is_asked = true;
    read.mailbox.fall_silent(read.rt);
    tell_work(read, state.latch);
    Ok(())
}

/// Answers one startup or frame of what came. False: none is there whole.
fn answer<L: LogName + SlotName, R: Wait + Clock, G: ServerObserver>(
    read: &ReadLoop<'_, L, R, G>,
    state: &mut ReadState,
) -> Result<bool, ConnectionEnd> {
    let mut said = BytesMut::new(read.server_state.alloc);
    let Some(more) = answered(read, state, &mut said) else {
        return Err(ConnectionEnd::Memory);
    };
    let phase = state.connection.phase();
    let is_refused = phase == Phase::Closed && !said.is_empty();
    post(read, state, said, phase)?;
    if is_refused {
        return Err(ConnectionEnd::Refused);
    }
    Ok(more)
}

/// Whether one was there, with what is said of it. None: there was no memory for that.
fn answered<L: LogName + SlotName, R: Wait + Clock, G: ServerObserver>(
    read: &ReadLoop<'_, L, R, G>,
    state: &mut ReadState,
    said: &mut BytesMut,
) -> Option<bool> {
    if !state.connection.is_let_in() {
        return authenticated(read, state, said);
    }
    let mut backend = HubBackend {
        rt: read.rt,
        server_state: read.server_state,
        mailbox: read.mailbox,
        observer: read.observer,
        number: read.number,
        socket: read.socket,
        user: &state.user,
        latch: state.latch,
        copies: mem::replace(&mut state.copies, SessionCopies::none()),
    };
    let answered = state.connection.answer(&mut backend, said);
    state.latch = backend.latch;
    state.copies = mem::replace(&mut backend.copies, SessionCopies::none());
    answered.ok()
}

/// The same of a startup, and of a message by which a password is proved.
fn authenticated<L: LogName + SlotName, R: Wait + Clock, G: ServerObserver>(
    read: &ReadLoop<'_, L, R, G>,
    state: &mut ReadState,
    said: &mut BytesMut,
) -> Option<bool> {
    let connection = &mut state.connection;
    let answered = read.server_state.authenticate(read.rt, connection, said);
    if connection.is_let_in() {
        state.user = connection.take_user();
    }
    answered.ok()
}

/// Waits for the end of the stream that stops, and has it said.
fn stop<L: LogName + SlotName, R: Wait + Clock, G: ServerObserver>(
    read: &ReadLoop<'_, L, R, G>,
    state: &mut ReadState,
) -> Result<(), ConnectionEnd>
    requires { guarded_phase state.old.connection.guard state.old.connection.connection.stage
        ≡ Phase.Stopping }
{
    read.mailbox.await_end(read.rt)?;
    read.server_state.sockets.end_stream(read.rt, read.number);
    state.latch = None;
    let mut said = BytesMut::new(read.server_state.alloc);
    let Ok(phase) = state.connection.stopped(&mut said) else {
        return Err(ConnectionEnd::Memory);
    };
    post(read, state, said, phase)
}

/// Has the writing thread know of these words and of the phase after them, unless it knows already.
fn post<L: LogName + SlotName, R: Wait + Clock, G: ServerObserver>(
    read: &ReadLoop<'_, L, R, G>,
    state: &mut ReadState,
    said: BytesMut,
    phase: Phase,
) -> Result<(), ConnectionEnd> {
    if said.is_empty() && phase == state.posted {
        return Ok(());
    }
    state.posted = phase;
    if said.is_empty() {
        read.mailbox.pass(read.rt, phase);
    } else {
        let until = state.patience.startup_until;
        read.mailbox.say(read.rt, said, phase, until)?;
    }
    tell_work(read, state.latch);
    Ok(())
}

/// Wakes the stream that runs.
fn tell_work<L: LogName + SlotName, R: Wait, G: ServerObserver>(
    read: &ReadLoop<'_, L, R, G>,
    latch: Option<usize>,
) {
    if let Some(latch) = latch {
        read.server_state.tell_work(read.rt, latch);
    }
}
