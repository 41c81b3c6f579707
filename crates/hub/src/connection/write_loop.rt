//! The writing thread of a connection: all that goes to the client.

ghost use Rattle.std.specs.Prelude.{[]};
ghost use Rattle.shared_log.specs.Readers.{seen_of};
ghost use Rattle.walsender.specs.Serving.{Serves};

use crate::stream::granting::{end_stream, inform};
use crate::stream::new_stream::NewStream;
use crate::stream::stream_backend::{StreamBackend, report};
use crate::stream::stream_loop::{say, write_stream};
use crate::stream::streaming::Stream;
use connections::{
    ConnectionEnd, ConnectionMailbox, MeteredWriter, Outlet, ServerObserver, SlotMonitor, Work,
};
use server::Phase;
use server_state::ServerState;
use shared_log::LogName;
use slots::SlotName;
use std::net::{Shutdown, TcpStream};
use std::sync::Wait;
use std::time::Clock;

/// What a writing thread is passed.
#[derive(Drop)]
pub(crate) struct WriteLoop<'h, L: LogName + SlotName, R: Wait, G: ServerObserver> {
    pub rt: &'h R,
    pub server_state: &'h ServerState<L>,
    pub mailbox: &'h ConnectionMailbox<NewStream<L>>,
    pub socket: &'h TcpStream,
    pub observer: &'h G,
    /// The connection's number.
    pub number: u32,
}

/// Writes what is said, and the streams that begin, until the connection is over; then closes it both ways, so that the
/// reading thread doesn't wait for more.
pub(crate) fn write_line<L: LogName + SlotName, R: Wait + Clock, G: ServerObserver>(
    write: &WriteLoop<'_, L, R, G>,
) {
    for _ in write.rt.forever() {
        write.mailbox.await_words(write.rt);
        if let Err(end) = write_step(write) {
            write.mailbox.end_early(write.rt, end);
            break;
        }
    }
    break_off(write);
}

/// Writes what is said, and, if that began a stream, all of the stream.
fn write_step<L: LogName + SlotName, R: Wait + Clock, G: ServerObserver>(
    write: &WriteLoop<'_, L, R, G>,
) -> Result<(), ConnectionEnd> {
    let mut work = write.mailbox.take(write.rt);
    let is_last = work.phase == Phase::Closed;
    if is_last && write.server_state.is_ending() {
        // A stream that has begun with it sends what the log has, as one that runs does.
        work.phase = Phase::Streaming;
    }
    say_first(write, &mut work)?;
    match stream_of(write, &work) {
        Some(stream) => write_whole(write, stream, work)?,
        None if is_last => return Err(ConnectionEnd::Client),
        None => return Ok(()),
    }
    write.mailbox.end_stream(write.rt);
    Ok(())
}

/// Writes what is said before all else.
fn say_first<L: LogName + SlotName, R: Wait, G: ServerObserver>(
    write: &WriteLoop<'_, L, R, G>,
    work: &mut Work,
) -> Result<(), ConnectionEnd> {
    say(work, &mut outlet(write))?;
    work.said.clear();
    Ok(())
}

/// The way to its client.
fn outlet<'h, L: LogName + SlotName, R: Wait, G: ServerObserver>(
    write: &WriteLoop<'h, L, R, G>,
) -> Outlet<'h, NewStream<L>, R, &'h TcpStream> {
    Outlet {
        rt: write.rt,
        mailbox: write.mailbox,
        to: write.socket,
    }
}

/// The stream that began with what was said, if one did.
fn stream_of<L: LogName + SlotName, R: Wait, G: ServerObserver>(
    write: &WriteLoop<'_, L, R, G>,
    work: &Work,
) -> Option<NewStream<L>> {
    if work.phase == Phase::Idle || work.phase == Phase::Startup {
        return None;
    }
    write.mailbox.take_stream(write.rt)
}

/// Writes a stream from its beginning, and answers why it could not be written to its end.
fn write_whole<L: LogName + SlotName, R: Wait + Clock, G: ServerObserver>(
    write: &WriteLoop<'_, L, R, G>,
    stream: NewStream<L>,
    work: Work,
) -> Result<(), ConnectionEnd> {
    let mut stream = stream.begin();
    let monitor = write.server_state.monitor_at(Some(stream.place()));
    let written = match monitor {
        Some(monitor) => write_begun(write, monitor, &mut stream, work),
        None => {
            drop(work);
            Err(ConnectionEnd::Lost)
        }
    };
    // Before the slot is free, since its next stream is told to the same monitor, also that of a new slot.
    let on_purpose = match monitor {
        Some(monitor) => end_on_purpose(write.rt, monitor),
        None => None,
    };
    end_stream(write.rt, write.server_state, stream);
    match on_purpose {
        Some(end) => Err(end),
        None => written,
    }
}

/// The stream of the slot ends: whether somebody else wanted that.
fn end_on_purpose<R: Wait>(rt: &R, monitor: &SlotMonitor) -> Option<ConnectionEnd> {
    if monitor.end(rt) {
        return Some(ConnectionEnd::Cut);
    }
    if monitor.is_lost(rt) {
        return Some(ConnectionEnd::Removed);
    }
    None
}

/// Writes a stream that has begun, and answers why it could not be written to its end.
fn write_begun<L: LogName + SlotName, R: Wait + Clock, G: ServerObserver>(
    write: &WriteLoop<'_, L, R, G>,
    monitor: &SlotMonitor,
    stream: &mut Stream<L>,
    mut work: Work,
) -> Result<(), ConnectionEnd>
    requires { ∥ Serves (seen_of stream.old.walsender.reader) [] stream.old.walsender ∥₁ }
{
    let (rt, server_state) = (write.rt, write.server_state);
    monitor.begin(rt, stream.latch());
    server_state.await_release(rt, write.mailbox, monitor, stream.latch());
    // What has woken it may be work, which waits for its first turn.
    server_state.tell_work(rt, stream.latch());
    inform(rt, server_state, stream);
    // It may have been held for long since the work was taken.
    work.clock = write.mailbox.clock(rt);
    work.readable = server_state.readable();
    let mut metered = MeteredWriter {
        rt,
        monitor,
        outlet: outlet(write),
    };
    let ended = write_stream(
        rt,
        &mut StreamBackend { write, monitor },
        &server_state.slots,
        stream,
        work,
        &mut metered,
    );
    report(write, monitor, stream);
    if ended != Err(ConnectionEnd::FullArena) {
        return ended;
    }
    monitor.fill(rt);
    Err(match stream.chunks_needed() {
        Some(chunks) => ConnectionEnd::TooFewChunks(chunks),
        None => ConnectionEnd::FullArena,
    })
}

/// Nothing is written any more, and nothing more comes.
pub(crate) fn break_off<L: LogName + SlotName, R: Wait, G: ServerObserver>(
    write: &WriteLoop<'_, L, R, G>,
) {
    write.mailbox.break_off(write.rt);
    let _ = write.socket.shutdown(Shutdown::Both);
}
