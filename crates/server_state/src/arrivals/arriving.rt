//! Connections that arrive, and those that can't be served.

use crate::fault::ServeFault;
use crate::server_state::ServerState;
use connections::{
    AcceptError, Arrival, ConnectionRefusal, ServerObserver, StreamError, hear_in_crowd,
    is_of_listener, next_socket, rest, write_stream_error,
};
use shared_log::LogName;
use slots::SlotName;
use std::net::{Shutdown, TcpListener, TcpStream};
use std::sync::Wait;
use std::sync::atomic::Ordering;
use std::time::Clock;

/// How many connections are heard out at once that are too many; more of them are refused before they have said a word.
const MOST_HEARD: u32 = 16;

/// What becomes of a connection that came.
#[derive(Clone, Copy, PartialEq, Eq)]
pub enum Admission {
    Served,
    /// As many are served as may be, and it is told so once its startup is there.
    Crowd,
}

impl<L: LogName + SlotName> ServerState<L> {
    /// What becomes of the connection that came, if one came that has a place. The listener rests where it can't give one for now.
    /// `Listener` where it gives no more.
    pub fn arrives<G: ServerObserver, R: Wait + Clock>(
        &self,
        rt: &R,
        listener: &TcpListener,
        observer: &G,
        arrival: &Arrival,
    ) -> Result<Option<Admission>, ServeFault> {
        match next_socket(listener, self.silence(), self.stalling()) {
            Ok(socket) => Ok(self.takes(rt, observer, arrival, socket)),
            Err(fault) if is_of_listener(&fault) => Err(ServeFault::Listener(fault)),
            Err(fault) => {
                observer.not_accepted(None, &AcceptError::Accept(fault));
                rest(rt);
                Ok(None)
            }
        }
    }

    /// What a broken listener means: nothing, once the server ends.
    pub fn of_listener(&self, fault: ServeFault) -> Result<(), ServeFault> {
        if self.is_ending() {
            drop(fault);
            return Ok(());
        }
        Err(fault)
    }

    /// Which place a connection has whose socket has come.
    fn takes<G: ServerObserver, R: Wait>(
        &self,
        rt: &R,
        observer: &G,
        arrival: &Arrival,
        socket: TcpStream,
    ) -> Option<Admission> {
        if self.is_ending() {
            return None;
        }
        let place = self.place_of_one_more();
        match place {
            Some(_) => arrival.put(rt, socket),
            None => self.refuse(observer, ConnectionRefusal::Crowd, &socket),
        }
        place
    }

    fn place_of_one_more(&self) -> Option<Admission> {
        if self.admit() {
            if self.admits_stranger() {
                return Some(Admission::Served);
            }
            self.dismiss();
        }
        if MOST_HEARD <= self.crowd.fetch_add(1, Ordering::SeqCst) {
            self.free_place(Admission::Crowd);
            return None;
        }
        Some(Admission::Crowd)
    }

    /// A connection has its place no more.
    fn free_place(&self, place: Admission) {
        match place {
            Admission::Served => {
                self.leave_strangers();
                self.dismiss();
            }
            Admission::Crowd => {
                self.crowd.fetch_sub(1, Ordering::SeqCst);
            }
        }
    }

    /// Whether all threads of the connection that came run, the first of which was begun or not. One that can't have them is told so.
    pub fn has_threads<G: ServerObserver, R: Wait>(
        &self,
        rt: &R,
        observer: &G,
        arrival: &Arrival,
        place: Admission,
        is_begun: bool,
    ) -> bool {
        if !is_begun {
            arrival.settle(rt);
        }
        let Some((socket, why)) = arrival.settled(rt) else {
            return true;
        };
        self.free_place(place);
        self.refuse(observer, why, &socket);
        false
    }

    /// Hears the connection out that came and is too many, and tells it so.
    // What that takes isn't on the stack of a connection that is served.
    #[inline(never)]
    pub fn turn_away<G: ServerObserver, R: Wait + Clock>(
        &self,
        rt: &R,
        observer: &G,
        number: u32,
        arrival: &Arrival,
    ) {
        let Some(socket) = arrival.take(rt) else {
            return;
        };
        if let Err(why) = self.turned_away.enter(rt, number, &socket) {
            arrival.give_back(rt, socket, why);
            return;
        }
        arrival.settle(rt);
        if hear_in_crowd(rt, self.alloc, &socket, self.startup_until(rt)) {
            self.refuse(observer, ConnectionRefusal::Crowd, &socket);
        }
        self.turned_away.leave(rt, number);
        self.free_place(Admission::Crowd);
    }

    /// Tells a client that it can't be served beside the others. After the server's end nobody is told anything.
    fn refuse<G: ServerObserver>(&self, observer: &G, why: ConnectionRefusal, socket: &TcpStream) {
        observer.not_accepted(socket.peer_addr().ok(), &AcceptError::Closed(why));
        if why != ConnectionRefusal::ServerEnd {
            let mut to = socket;
            let _ = write_stream_error(self.alloc, StreamError::Crowd, &mut to);
        }
        let _ = socket.shutdown(Shutdown::Both);
    }
}
