//! Serving connections: two threads for each.

use crate::connection::read_loop::{ReadLoop, read_line};
use crate::connection::write_loop::{WriteLoop, write_line};
use crate::hub::Hub;
use crate::stream::granting::end_stream;
use crate::stream::new_stream::NewStream;
use connections::{Arrival, ConnectionEnd, ConnectionMailbox, ConnectionRefusal, ServerObserver};
use server_state::{Admission, ServeFault, ServerState};
use shared_log::LogName;
use slots::SlotName;
use std::net::{Shutdown, TcpListener, TcpStream};
use std::random::RandomSource;
use std::sync::Wait;
use std::thread;
use std::thread::Threads;
use std::time::Clock;

/// Takes connections from the listener, one after another, and serves each from the hub by a reading and a writing thread. It
/// takes no more after `Hub::stop`, or after as many as `HubSettings::connections` says, and returns when all of them have ended.
///
/// A connection counts once both of its threads run. One that can't have them, or comes where `max_connections` are served, is
/// told so (53300) and closed, and the observer is told why; so it is where the listener can't give one for now. Then the next is
/// taken. One too many is heard out by a thread of its own before it is told, as long as few are. A failed read or write ends its
/// connection alone, and the observer is told how each has ended. An error means that the listener gives no more, though nobody ended
/// the server; it is answered once the connections that were taken have ended.
pub fn serve<L, G, R>(
    rt: &R,
    listener: &TcpListener,
    hub: &Hub<L>,
    observer: &G,
) -> Result<(), ServeFault>
where
    L: LogName + SlotName + Send + Sync,
    G: ServerObserver + Sync,
    R: Threads + Wait + Clock + RandomSource + Sync,
{
    let server_state = &hub.server_state;
    let arrival = Arrival::new();
    let shared = &arrival;
    thread::scope(thread::scope_env(), rt, |scope| {
        let mut ended = Ok(());
        let mut taken = Taken::nobody();
        for _ in rt.forever() {
            if !server_state.takes_more(taken.served) {
                break;
            }
            match server_state.arrives(rt, listener, observer, shared) {
                Ok(Some(place)) => {
                    let number = taken.next(place);
                    let spawned = scope.spawn(move || connect(
                        rt,
                        server_state,
                        observer,
                        place,
                        number,
                        shared,
                    ));
                    if server_state.has_threads(rt, observer, shared, place, spawned.is_ok()) {
                        taken.count(place);
                    }
                }
                Ok(None) => {}
                Err(fault) => {
                    ended = server_state.of_listener(fault);
                    break;
                }
            }
        }
        server_state.end_crowd(rt);
        ended
    })
}

/// How many connections were taken, by what has become of them.
#[derive(Clone, Copy)]
struct Taken {
    served: u32,
    turned_away: u32,
}

impl Taken {
    fn nobody() -> Self {
        Taken {
            served: 0,
            turned_away: 0,
        }
    }

    /// The number of the next one: each kind is counted from 1.
    fn next(&self, place: Admission) -> u32 {
        match place {
            Admission::Served => self.served.wrapping_add(1),
            Admission::Crowd => self.turned_away.wrapping_add(1),
        }
    }

    /// The next one was taken.
    fn count(&mut self, place: Admission) {
        let number = self.next(place);
        match place {
            Admission::Served => self.served = number,
            Admission::Crowd => self.turned_away = number,
        }
    }
}

/// Serves the connection that arrived, or turns it away, and closes its socket. Where it can't be served, it goes back.
fn connect<L, G, R>(
    rt: &R,
    server_state: &ServerState<L>,
    observer: &G,
    place: Admission,
    number: u32,
    arrival: &Arrival,
)
where
    L: LogName + SlotName + Send + Sync,
    G: ServerObserver + Sync,
    R: Threads + Wait + Clock + RandomSource + Sync,
{
    match place {
        Admission::Served => serve_one(rt, server_state, observer, number, arrival),
        Admission::Crowd => server_state.turn_away(rt, observer, number, arrival),
    }
}

fn serve_one<L, G, R>(
    rt: &R,
    server_state: &ServerState<L>,
    observer: &G,
    number: u32,
    arrival: &Arrival,
)
where
    L: LogName + SlotName + Send + Sync,
    G: ServerObserver + Sync,
    R: Threads + Wait + Clock + RandomSource + Sync,
{
    if let Some(socket) = arrival.take(rt) {
        if let Err(why) = serve_to_end(rt, server_state, observer, number, arrival, &socket) {
            arrival.give_back(rt, socket, why);
        }
    }
}

/// Serves a connection to its end, or answers why it can't be served.
fn serve_to_end<L, G, R>(
    rt: &R,
    server_state: &ServerState<L>,
    observer: &G,
    number: u32,
    arrival: &Arrival,
    socket: &TcpStream,
) -> Result<(), ConnectionRefusal>
where
    L: LogName + SlotName + Send + Sync,
    G: ServerObserver + Sync,
    R: Threads + Wait + Clock + RandomSource + Sync,
{
    server_state.sockets.enter(rt, number, socket)?;
    let mailbox = ConnectionMailbox::new(server_state.alloc);
    let read = both(
        rt,
        server_state,
        observer,
        number,
        arrival,
        &mailbox,
        socket,
    );
    server_state.sockets.leave(rt, number);
    let early = end_mailbox(rt, server_state, mailbox);
    let Some(end) = read else {
        return Err(ConnectionRefusal::Thread);
    };
    server_state.dismiss();
    observer.ended(number, why(early, end));
    Ok(())
}

/// Ends a line with the stream that was never written, and answers why no more could be written, if it could not.
fn end_mailbox<L: LogName + SlotName, R: Wait>(
    rt: &R,
    server_state: &ServerState<L>,
    mailbox: ConnectionMailbox<NewStream<L>>,
) -> Option<ConnectionEnd> {
    let (unwritten, early) = mailbox.end();
    if let Some(unwritten) = unwritten {
        end_stream(rt, server_state, unwritten.begin());
    }
    early
}

/// Why a connection ended: why no more could be written, where that is a cause of its own, and else what its reading thread has seen.
fn why(early: Option<ConnectionEnd>, read: ConnectionEnd) -> ConnectionEnd {
    match early {
        Some(end) if end.is_of_writing() => end,
        _ => read,
    }
}

/// Serves a connection by this thread and another, and answers why that ended. None: there is no other.
fn both<L, G, R>(
    rt: &R,
    server_state: &ServerState<L>,
    observer: &G,
    number: u32,
    arrival: &Arrival,
    mailbox: &ConnectionMailbox<NewStream<L>>,
    socket: &TcpStream,
) -> Option<ConnectionEnd>
where
    L: LogName + SlotName + Send + Sync,
    G: ServerObserver + Sync,
    R: Threads + Wait + Clock + RandomSource + Sync,
{
    thread::scope(thread::scope_env(), rt, |scope| {
        let spawned = scope.spawn(|| write(rt, server_state, mailbox, observer, number, socket));
        if spawned.is_err() {
            return None;
        }
        arrival.settle(rt);
        observer.begun(number, socket.peer_addr().ok());
        Some(read(rt, server_state, mailbox, observer, number, socket))
    })
}

/// Reads until the connection is over, and answers why. Where its client was silent for too long, or its startup took too long, the
/// socket is closed, so that the writing thread doesn't wait in it.
fn read<L: LogName + SlotName, G: ServerObserver, R: Wait + Clock + RandomSource>(
    rt: &R,
    server_state: &ServerState<L>,
    mailbox: &ConnectionMailbox<NewStream<L>>,
    observer: &G,
    number: u32,
    socket: &TcpStream,
) -> ConnectionEnd {
    let read = ReadLoop {
        rt,
        server_state,
        mailbox,
        observer,
        number,
        socket,
    };
    let end = read_line(&read);
    if matches!(end, ConnectionEnd::Silent | ConnectionEnd::NoStartup) {
        let _ = socket.shutdown(Shutdown::Both);
    }
    end
}

fn write<L: LogName + SlotName, R: Wait + Clock, G: ServerObserver>(
    rt: &R,
    server_state: &ServerState<L>,
    mailbox: &ConnectionMailbox<NewStream<L>>,
    observer: &G,
    number: u32,
    socket: &TcpStream,
) {
    let write = WriteLoop {
        rt,
        server_state,
        mailbox,
        socket,
        observer,
        number,
    };
    write_line(&write);
}
