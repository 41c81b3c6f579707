//! A connection on its way to its threads.

use crate::fault::ConnectionRefusal;
use std::mem;
use std::net::TcpStream;
use std::sync::{Condvar, Mutex, MutexGuard, Wait};

/// Where the thread that takes connections leaves one for the thread that reads it, and waits until all of its threads run.
#[derive(Drop)]
pub struct Arrival {
    arriving: Mutex<Arriving>,
    settled: Condvar,
}

#[derive(Drop)]
struct Arriving {
    socket: Option<TcpStream>,
    /// Why it can't be served whose socket is here.
    why: ConnectionRefusal,
    /// All of its threads run, or it has none and is still here.
    is_settled: bool,
}

impl Arrival {
    pub fn new() -> Self {
        Arrival {
            arriving: Mutex::new(Arriving {
                socket: None,
                why: ConnectionRefusal::Thread,
                is_settled: false,
            }),
            settled: Condvar::new(),
        }
    }

    /// A connection came.
    pub fn put<R: Wait>(&self, rt: &R, socket: TcpStream) {
        let mut arriving = self.arriving.lock(rt);
        arriving.socket = Some(socket);
        arriving.why = ConnectionRefusal::Thread;
        arriving.is_settled = false;
        drop(arriving);
    }

    /// The connection that came. None: it was taken already, or none came.
    pub fn take<R: Wait>(&self, rt: &R) -> Option<TcpStream> {
        let mut arriving = self.arriving.lock(rt);
        let socket = mem::replace(&mut arriving.socket, None);
        let _ = MutexGuard::unlock(arriving);
        socket
    }

    /// It was taken and all of its threads run, or nobody takes it.
    pub fn settle<R: Wait>(&self, rt: &R) {
        let mut arriving = self.arriving.lock(rt);
        arriving.is_settled = true;
        drop(arriving);
        self.settled.notify_all();
    }

    /// It was taken, and can't be served.
    pub fn give_back<R: Wait>(&self, rt: &R, socket: TcpStream, why: ConnectionRefusal) {
        let mut arriving = self.arriving.lock(rt);
        arriving.socket = Some(socket);
        arriving.why = why;
        arriving.is_settled = true;
        drop(arriving);
        self.settled.notify_all();
    }

    /// Waits until all of its threads run, and answers the connection where it can't be served, and why. None: it was taken.
    pub fn settled<R: Wait>(&self, rt: &R) -> Option<(TcpStream, ConnectionRefusal)> {
        let arriving = self.arriving.lock(rt);
        let mut arriving = self
            .settled
            .wait_while(rt, arriving, |arriving| !arriving.is_settled);
        let socket = mem::replace(&mut arriving.socket, None);
        let why = arriving.why;
        let _ = MutexGuard::unlock(arriving);
        Some((socket?, why))
    }
}
