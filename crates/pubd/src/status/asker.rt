//! One who asks what runs, by a socket on which no call waits.

use http_server::{Config, Connection, Service};
use mio::net::TcpStream;
use std::alloc::Global;
use std::hash::RandomState;
use std::io;
use std::io::ErrorKind;
use std::random::RandomSource;
use std::time::Duration;

/// For how many seconds a request is read and answered.
const PATIENCE: u64 = 5;

/// A connection that asks, and by when on the clock it has to have its page.
#[derive(Drop)]
pub(crate) struct Asker {
    pub socket: TcpStream,
    connection: Connection,
    until: Duration,
}

impl Asker {
    /// Of whom nothing has come yet. The system's error where no random bytes are to be had.
    pub fn new<R: RandomSource>(
        rt: &R,
        alloc: Global,
        socket: TcpStream,
        now: Duration,
    ) -> io::Result<Self> {
        Ok(Asker {
            socket,
            connection: Connection::new(alloc, RandomState::new(rt)?, Config::default()),
            until: now.saturating_add(Duration::from_secs(PATIENCE)),
        })
    }

    /// For how long it may still wait for its page.
    pub fn left(&self, now: Duration) -> Duration {
        self.until.saturating_sub(now)
    }

    /// Reads, answers and writes as far as its socket goes on now, and answers whether more is to come.
    pub fn go_on<S: Service>(&mut self, service: &mut S, now: Duration) -> bool {
        if self.left(now).is_zero() {
            return false;
        }
        match self.serve(service) {
            Ok(()) => false,
            Err(fault) => fault.kind() == ErrorKind::WouldBlock,
        }
    }

    fn serve<S: Service>(&mut self, service: &mut S) -> io::Result<()> {
        for _ in 0..u64::MAX {
            self.connection.advance(service);
            if self.connection.is_done() {
                return Ok(());
            }
            if !self.connection.wants_write() {
                self.connection.read_from(&mut self.socket)?;
            } else if self.connection.write_to(&mut self.socket)? == 0 {
                return Err(io::Error::from(ErrorKind::WriteZero));
            }
        }
        Ok(())
    }
}
