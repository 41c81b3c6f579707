//! How a connection is read: how long a read waits, and what it brings.

ghost use Rattle.std.specs.Prelude.{◌≡◌, Err, Ok};
ghost use Rattle.std.specs.IoError.{error_kind};

use crate::authentication::guarded_connection::GuardedConnection;
use crate::fault::ConnectionEnd;
use frames::TERMINATE;
use server::Phase;
use std::io;
use std::io::{ErrorKind, Read};
use std::net::TcpStream;
use std::time::{Clock, Duration};

/// How many bytes are read at once.
const MOST_READ: usize = 1024;

/// The fewest milliseconds for which a read waits: a socket takes none for no limit.
const SHORTEST_WAIT: u64 = 1;

/// What a read has brought.
#[derive(Clone, Copy, PartialEq, Eq)]
pub enum Came {
    Bytes,
    /// It gave up.
    Nothing,
    /// A signal came, as to a process that was stopped and goes on.
    Signal,
}

/// For how long the reads of a connection wait.
#[derive(Clone, Copy, Drop)]
pub struct Patience {
    /// By when the startup has to have come, on the clock, unless it has or may take for ever.
    pub startup_until: Option<Duration>,
    /// For how long nothing may come after it.
    silence: Option<Duration>,
    /// Since when nothing has come, on the clock.
    silent_since: Option<Duration>,
    /// A signal has ended the last read.
    is_interrupted: bool,
    /// For how long a read of the socket waits now.
    set: Option<Duration>,
}

impl Patience {
    /// Of a socket whose reads wait for as long as nothing may come.
    pub fn new(startup_until: Option<Duration>, silence: Option<Duration>) -> Self {
        Patience {
            startup_until,
            silence,
            silent_since: None,
            is_interrupted: false,
            set: silence,
        }
    }

    /// The next read waits no longer than the startup may take yet, and after it for as long as nothing may come. Nothing is left
    /// of the startup's limit then. `NoStartup` where the startup may take no longer, `Lost` where the clock or the socket fails.
    pub fn limit_wait<R: Clock>(
        &mut self,
        rt: &R,
        socket: &TcpStream,
        phase: Phase,
    ) -> Result<(), ConnectionEnd> {
        let wait = self.wait(rt, phase)?;
        if wait == self.set {
            return Ok(());
        }
        self.set = wait;
        match socket.set_read_timeout(wait) {
            Ok(()) => Ok(()),
            Err(_) => Err(ConnectionEnd::Lost),
        }
    }

    fn wait<R: Clock>(&mut self, rt: &R, phase: Phase) -> Result<Option<Duration>, ConnectionEnd> {
        if phase != Phase::Startup {
            self.startup_until = None;
            return Ok(self.left_of_silence(rt));
        }
        match self.startup_until {
            Some(until) => Ok(Some(left_until(rt, until)?)),
            None => Ok(self.silence),
        }
    }

    /// How much longer nothing may come. A read that a signal has ended is gone on with, however many signals come.
    fn left_of_silence<R: Clock>(&mut self, rt: &R) -> Option<Duration> {
        let silence = self.silence?;
        let Ok(now) = rt.monotonic() else {
            return Some(silence);
        };
        let since = match self.silent_since {
            Some(since) if self.is_interrupted => since,
            _ => now,
        };
        self.silent_since = Some(since);
        let left = silence.saturating_sub(now.saturating_sub(since));
        Some(left.max(Duration::from_millis(SHORTEST_WAIT)))
    }

    /// The read has brought this.
    pub fn note(&mut self, came: Came) {
        self.is_interrupted = came == Came::Signal;
    }
}

/// How much time is left until then. `NoStartup` where that has come, `Lost` where the clock can't be read.
pub fn left_until<R: Clock>(rt: &R, until: Duration) -> Result<Duration, ConnectionEnd> {
    match rt.monotonic() {
        Ok(now) if now < until => {
            let left = until.saturating_sub(now);
            Ok(left.max(Duration::from_millis(SHORTEST_WAIT)))
        }
        Ok(_) => Err(ConnectionEnd::NoStartup),
        Err(_) => Err(ConnectionEnd::Lost),
    }
}

/// Reads more for the connection. `Client` where it closed, `Lost` where it can't be read, `Memory` where memory is refused.
// The buffer isn't on the stack while a command is answered.
#[inline(never)]
pub fn read_more(
    connection: &mut GuardedConnection,
    socket: &TcpStream,
) -> Result<Came, ConnectionEnd> {
    let mut bytes = [0; MOST_READ];
    let mut from = socket;
    match from.read(&mut bytes) {
        Ok(0) => Err(ConnectionEnd::Client),
        Ok(count) => {
            connection.push(&bytes[..count])?;
            Ok(Came::Bytes)
        }
        Err(fault) => without_bytes(&fault),
    }
}

/// What a read has brought that failed so. `Client` where the client has reset its connection, as it does by closing before it has
/// read all; `Lost` of any other failure.
pub fn without_bytes(fault: &io::Error) -> Result<Came, ConnectionEnd>
    ensures nothing { error_kind fault.now ≡ ErrorKind.WouldBlock → result ≡ Ok Came.Nothing }
    ensures signal { error_kind fault.now ≡ ErrorKind.Interrupted → result ≡ Ok Came.Signal }
    ensures reset { error_kind fault.now ≡ ErrorKind.ConnectionReset →
        result ≡ Err ConnectionEnd.Client }
{
    match fault.kind() {
        ErrorKind::WouldBlock => Ok(Came::Nothing),
        ErrorKind::Interrupted => Ok(Came::Signal),
        ErrorKind::ConnectionReset | ErrorKind::BrokenPipe => Err(ConnectionEnd::Client),
        _ => Err(ConnectionEnd::Lost),
    }
}

/// Whether a client that waits for an answer has gone. One that has said more since, but for a Terminate, is taken to be there.
pub fn has_gone(socket: &TcpStream) -> bool {
    let Ok(before) = socket.read_timeout() else {
        return true;
    };
    let wait = Some(Duration::from_millis(SHORTEST_WAIT));
    if socket.set_read_timeout(wait).is_err() {
        return true;
    }
    let has_gone = has_ended(socket);
    socket.set_read_timeout(before).is_err() || has_gone
}

fn has_ended(socket: &TcpStream) -> bool {
    let mut next = [0];
    match socket.peek(&mut next) {
        Ok(0) => true,
        Ok(_) => next[0] == TERMINATE,
        Err(fault) => without_bytes(&fault).is_err(),
    }
}
