//! Why a stream was not followed to its end, K1 to K10.

use crate::login::login_fault::LoginFault;
use client::ClientFault;
use frames::{ErrorResponse, FrameFault};
use message_lines::LineFault;
use pqformat::Text;
use scram::ServerFault;
use std::alloc::{AllocError, AllocFailed};
use std::{fmt, io};
use thiserror::Error;

/// The most bytes that are shown of a code and of a text.
const MOST_OF_CODE: usize = 5;

const MOST_OF_TEXT: usize = 160;

/// What the server said in an ErrorResponse (PostgreSQL 15, 55.8).
#[derive(Debug, Drop)]
pub struct ServerError {
    /// The SQLSTATE, field C.
    pub code: Text,
    /// The message, field M.
    pub text: Text,
}

/// As much of each as a line shows: the server chose both.
impl fmt::Display for ServerError {
    fn fmt<W: fmt::Write>(&self, f: &mut fmt::Formatter<W>) -> fmt::Result {
        let code = beginning(self.code.as_str(), MOST_OF_CODE);
        let text = beginning(self.text.as_str(), MOST_OF_TEXT);
        write!(f, "{code} {text}")
    }
}

/// A server that says it is another system than the one whose transactions were printed.
#[derive(Debug, Drop)]
pub struct OtherSystem {
    /// The system that was followed before.
    pub before: String,
    /// The one that the server says it is.
    pub now: String,
}

/// As much of each name as a line shows: servers chose both.
impl fmt::Display for OtherSystem {
    fn fmt<W: fmt::Write>(&self, f: &mut fmt::Formatter<W>) -> fmt::Result {
        let before = beginning(self.before.as_str(), MOST_OF_TEXT);
        let now = beginning(self.now.as_str(), MOST_OF_TEXT);
        write!(
            f,
            "the server is system {now}, and what was printed before is of system {before}"
        )
    }
}

/// The beginning of a text, before its first control character, of so many bytes and the rest of a character.
fn beginning(text: &str, most: usize) -> &str {
    for (at, c) in text.char_indices() {
        if most <= at || c.is_control() {
            return text.get(..at).unwrap_or("");
        }
    }
    text
}

/// Why a stream was not followed to its end.
#[derive(Debug, Drop, Error)]
pub enum FollowFault {
    /// K1 to K3, K5, and K8. K4 where the server gave no reason.
    #[error("{0}")]
    Client(ClientFault),
    /// K4.
    #[error("server: {0}")]
    Server(ServerError),
    /// K6 where a command with these names is longer than a server reads.
    #[error("K6: the command is too long to be sent")]
    LongCommand,
    /// K6 where reading from the server or writing to it failed.
    #[error("K6: the connection failed: {0}")]
    Connection(io::Error),
    /// K6 where nothing came for as long as a read of the socket may wait.
    #[error("K6: the server is silent")]
    Silent,
    /// K6 where the server ended the connection.
    #[error("K6: the server ended the connection early")]
    Ended,
    /// K6 where the output failed.
    #[error("K6: the output cannot be written: {0}")]
    Output(io::Error),
    /// K7. Positions of one system say nothing of another.
    #[error("K7: {0}")]
    OtherSystem(OtherSystem),
    /// K9.
    #[error("K9: {0}")]
    Login(LoginFault),
    /// K10. A copy is of publications that are there.
    #[error("K10: there is no publication {0}")]
    NoPublication(String),
}

impl From<AllocError> for FollowFault {
    fn from(_e: AllocError) -> FollowFault {
        FollowFault::Client(ClientFault::Memory)
    }
}

impl<T: Drop> From<AllocFailed<T>> for FollowFault {
    fn from(_e: AllocFailed<T>) -> FollowFault {
        FollowFault::Client(ClientFault::Memory)
    }
}

impl From<ClientFault> for FollowFault {
    fn from(fault: ClientFault) -> FollowFault {
        FollowFault::Client(fault)
    }
}

impl From<ServerFault> for FollowFault {
    fn from(fault: ServerFault) -> FollowFault {
        match fault {
            ServerFault::Memory => FollowFault::Client(ClientFault::Memory),
            fault => FollowFault::Login(LoginFault::Server(fault)),
        }
    }
}

impl From<FrameFault> for FollowFault {
    fn from(fault: FrameFault) -> FollowFault {
        match fault {
            FrameFault::Memory => FollowFault::Client(ClientFault::Memory),
            _ => FollowFault::Client(ClientFault::Frame),
        }
    }
}

/// K2 is a row of another count of values than its table has columns.
impl From<LineFault> for FollowFault {
    fn from(fault: LineFault) -> FollowFault {
        match fault {
            LineFault::Shape => FollowFault::Client(ClientFault::Order),
            LineFault::Memory => FollowFault::Client(ClientFault::Memory),
        }
    }
}

/// What a read that failed tells.
pub(crate) fn unread(fault: io::Error) -> FollowFault {
    match fault.kind() {
        io::ErrorKind::WouldBlock | io::ErrorKind::TimedOut => FollowFault::Silent,
        _ => FollowFault::Connection(fault),
    }
}

/// The fault that an ErrorResponse tells.
pub(crate) fn told(error: ErrorResponse) -> FollowFault {
    let mut code = None;
    let mut text = None;
    for field in error.fields.into_vec() {
        match field.code {
            b'C' => code = Some(field.text),
            b'M' => text = Some(field.text),
            _ => {}
        }
    }
    match (code, text) {
        (Some(code), Some(text)) => FollowFault::Server(ServerError { code, text }),
        _ => FollowFault::Client(ClientFault::Server),
    }
}
