//! The sockets of the connections that are served, so that the end of the server reaches each.

use crate::fault::ConnectionRefusal;
use std::alloc::Global;
use std::net::{Shutdown, TcpStream};
use std::sync::atomic::{AtomicBool, Ordering};
use std::sync::{Mutex, Wait};

#[derive(Drop)]
pub struct Sockets {
    served: Mutex<Vec<ServedSocket>>,
    /// The server ends, and serves no more connections.
    is_ending: AtomicBool,
}

/// A second handle of a connection's socket.
#[derive(Drop)]
struct ServedSocket {
    /// The connection's number.
    number: u32,
    socket: TcpStream,
    /// A stream runs on it, whose statuses are read to their end.
    has_stream: bool,
}

impl Sockets {
    pub fn new(alloc: Global) -> Self {
        Sockets {
            served: Mutex::new(Vec::new(alloc)),
            is_ending: AtomicBool::new(false),
        }
    }

    pub fn is_ending(&self) -> bool {
        self.is_ending.load(Ordering::SeqCst)
    }

    /// A connection of this number is served by this socket. `Descriptor` where the system gives no second handle of it,
    /// `ServerEnd` where no more are served, `Memory` where memory is refused.
    pub fn enter<R: Wait>(
        &self,
        rt: &R,
        number: u32,
        socket: &TcpStream,
    ) -> Result<(), ConnectionRefusal> {
        let Ok(socket) = socket.try_clone() else {
            return Err(ConnectionRefusal::Descriptor);
        };
        let mut served = self.served.lock(rt);
        if self.is_ending() {
            return Err(ConnectionRefusal::ServerEnd);
        }
        match served.push(ServedSocket {
            number,
            socket,
            has_stream: false,
        }) {
            Ok(()) => Ok(()),
            Err(_) => Err(ConnectionRefusal::Memory),
        }
    }

    /// It is served no more.
    pub fn leave<R: Wait>(&self, rt: &R, number: u32) {
        let mut served = self.served.lock(rt);
        match place_of(served.as_slice(), number) {
            Some(place) if place < served.len() => drop(served.swap_remove(place)),
            _ => {}
        }
        drop(served);
    }

    /// A stream has begun on the connection of this number. Where the server ends already, nothing more comes from its client.
    pub fn begin_stream<R: Wait>(&self, rt: &R, number: u32) {
        let mut served = self.served.lock(rt);
        match place_of(served.as_slice(), number) {
            Some(place) if place < served.len() && !self.is_ending() => {
                served[place].has_stream = true;
            }
            _ => {}
        }
        drop(served);
    }

    /// The stream on the connection of this number has stopped. Where the server ends, nothing more comes from its client.
    pub fn end_stream<R: Wait>(&self, rt: &R, number: u32) {
        let mut served = self.served.lock(rt);
        match place_of(served.as_slice(), number) {
            Some(place) if place < served.len() => {
                served[place].has_stream = false;
                if self.is_ending() {
                    let _ = served[place].socket.shutdown(Shutdown::Read);
                }
            }
            _ => {}
        }
        drop(served);
    }

    /// No more connections are served, and nothing more comes from the clients of those that are, but for those of streams.
    pub fn end<R: Wait>(&self, rt: &R) {
        let served = self.served.lock(rt);
        self.is_ending.store(true, Ordering::SeqCst);
        for each in served.iter() {
            if !each.has_stream {
                let _ = each.socket.shutdown(Shutdown::Read);
            }
        }
        drop(served);
    }

    /// Nothing more goes to the clients either.
    pub fn cut_off<R: Wait>(&self, rt: &R) {
        let served = self.served.lock(rt);
        for each in served.iter() {
            let _ = each.socket.shutdown(Shutdown::Both);
        }
        drop(served);
    }

    /// Whether no connection is served.
    pub fn is_empty<R: Wait>(&self, rt: &R) -> bool {
        self.served.lock(rt).is_empty()
    }
}

fn place_of(served: &[ServedSocket], number: u32) -> Option<usize> {
    for (place, each) in served.iter().enumerate() {
        if each.number == number {
            return Some(place);
        }
    }
    None
}
