//! What a client gets that comes where as many are served as may be: it is read as any other until its startup is there.

ghost use Rattle.std.specs.Prelude.{◌≡◌};
ghost use Rattle.frames.specs.Startup.{framed_startup};
ghost use Rattle.connections.specs.Crowds.{due_in_crowd};

use crate::fault::ConnectionEnd;
use crate::socket::reading::{left_until, without_bytes};
use bytes::BytesMut;
use frames::{Startup, read_startup};
use std::alloc::Global;
use std::io::{Read, Write};
use std::net::TcpStream;
use std::sync::Wait;
use std::time::{Clock, Duration};

/// What a server says to who asks for encryption and gets none.
const NO: u8 = b'N';

/// How many requests for encryption are answered: PostgreSQL's clients make one of each kind (PostgreSQL 15, 55.2.10 and 55.2.11).
const MOST_REQUESTS: u32 = 2;

/// How many bytes are read at once.
const MOST_READ: usize = 512;

/// What is due to a client that isn't served.
#[derive(Clone, Copy, PartialEq, Eq)]
pub enum Due {
    /// More of its startup has to come.
    Wait,
    /// It asked for encryption by so many bytes, and gets none.
    No(usize),
    /// It is told that it can't be served.
    Refusal,
    /// It waits for no words.
    Nothing,
}

/// What is due for these bytes: `Wait` while they are no whole startup, `No` for a request of encryption, `Nothing` for one to
/// cancel a query, `Refusal` for any other startup and for what is none (PostgreSQL 15, 55.2).
pub fn due_in_crowd(alloc: Global, bytes: &[u8]) -> Due
    ensures { result ≡ due_in_crowd (framed_startup bytes.now) }
{
    match read_startup(alloc, bytes) {
        Ok(None) => Due::Wait,
        Ok(Some((Startup::Ssl | Startup::Gss, count))) => Due::No(count),
        Ok(Some((Startup::Cancel(_, _), _))) => Due::Nothing,
        Ok(Some((Startup::Session(_), _))) | Err(_) => Due::Refusal,
    }
}

/// Hears a client that isn't served out, until this time on the clock. It answers whether the client is to be told so.
pub fn hear_in_crowd<R: Wait + Clock>(
    rt: &R,
    alloc: Global,
    socket: &TcpStream,
    until: Option<Duration>,
) -> bool {
    let mut bytes = BytesMut::new(alloc);
    let mut requests = 0;
    for _ in rt.forever() {
        let heard = match due_in_crowd(alloc, bytes.as_slice()) {
            Due::Wait => read_in_crowd(rt, socket, until, &mut bytes),
            Due::No(count) if requests < MOST_REQUESTS => {
                requests += 1;
                deny(socket, count, &mut bytes)
            }
            Due::No(_) | Due::Refusal => return true,
            Due::Nothing => return false,
        };
        if heard.is_err() {
            break;
        }
    }
    false
}

/// Reads more of its startup, if that comes in time.
fn read_in_crowd<R: Clock>(
    rt: &R,
    socket: &TcpStream,
    until: Option<Duration>,
    bytes: &mut BytesMut,
) -> Result<(), ConnectionEnd> {
    if let Some(until) = until {
        let left = left_until(rt, until)?;
        if socket.set_read_timeout(Some(left)).is_err() {
            return Err(ConnectionEnd::Lost);
        }
    }
    let mut room = [0; MOST_READ];
    let mut from = socket;
    match from.read(&mut room) {
        Ok(0) => Err(ConnectionEnd::Client),
        Ok(count) => {
            bytes.extend_from_slice(&room[..count])?;
            Ok(())
        }
        Err(fault) => {
            without_bytes(&fault)?;
            Ok(())
        }
    }
}

/// Answers a request for encryption of so many bytes.
fn deny(socket: &TcpStream, count: usize, bytes: &mut BytesMut) -> Result<(), ConnectionEnd> {
    bytes.advance(count.min(bytes.len()));
    let mut to = socket;
    match to.write_all(&[NO]) {
        Ok(()) => Ok(()),
        Err(_) => Err(ConnectionEnd::Client),
    }
}
