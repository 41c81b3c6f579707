//! What the server says of an error of its own.

ghost use Rattle.std.specs.Prelude.{◌≡◌, ◌++◌, IfOk, OnOk, length, ◌≤◌};
ghost use Rattle.std.specs.Io.KnownBytes.{Appends};
ghost use Rattle.connections.specs.StreamErrors.{told_stream_error, stream_error_code, stream_error_severity, stream_error_text};

use bytes::BytesMut;
use frames::{Back, ErrorField, ErrorResponse, write_back};
use pqformat::{Items, Text};
use std::alloc::{AllocError, Global};
use std::io;
use std::io::{ErrorKind, Write};

/// Why a stream ends before its client asks for it, or a connection before its client has said a word.
#[derive(Clone, Copy, PartialEq, Eq)]
pub enum StreamError {
    Memory,
    /// Transactions in progress fill the arena.
    FullArena,
    /// The log lets no reader in.
    NoEntry,
    /// The log's records for the stream were given back, since its slot was given up.
    Removed,
    /// No threads are to be had for one more connection.
    Crowd,
}

impl StreamError {
    fn code(self) -> &'static str
        ensures code { result.now ≡ stream_error_code self }
        ensures short { length result.now ≤ 40 }
    {
        match self {
            StreamError::Memory => "53200",
            StreamError::FullArena | StreamError::NoEntry => "53400",
            StreamError::Removed => "57P01",
            StreamError::Crowd => "53300",
        }
    }

    fn text(self) -> &'static str
        ensures text { result.now ≡ stream_error_text self }
        ensures short { length result.now ≤ 60 }
    {
        match self {
            StreamError::Memory => "out of memory",
            StreamError::FullArena => "change arena is full",
            StreamError::NoEntry => "log cannot be entered",
            StreamError::Removed => "terminating connection due to administrator command",
            StreamError::Crowd => "sorry, too many clients already",
        }
    }

    fn severity(self) -> &'static str
        ensures severity { result.now ≡ stream_error_severity self }
        ensures short { length result.now ≤ 40 }
    {
        match self {
            StreamError::Memory | StreamError::FullArena | StreamError::NoEntry => "ERROR",
            StreamError::Removed | StreamError::Crowd => "FATAL",
        }
    }
}

/// Writes the ErrorResponse that tells it (PostgreSQL 15, 55.8). The writer's error, or `OutOfMemory` where memory is refused.
pub fn write_stream_error<W: Write>(
    alloc: Global,
    stream_error: StreamError,
    to: &mut W,
) -> io::Result<()>
    ensures { OnOk result (Appends (W.contents to.old) (W.contents to.new) (told_stream_error stream_error)) }
{
    let mut frame = BytesMut::new(alloc);
    if say_stream_error(alloc, stream_error, &mut frame).is_err() {
        return Err(io::Error::from(ErrorKind::OutOfMemory));
    }
    to.write_all(frame.as_slice())
}

/// Adds that ErrorResponse to what is to be written. `AllocError` where memory is refused.
#[tactic(auto, unfolding(crate::specs::StreamErrors::told_stream_error, pqformat::specs::Fields::int32))]
pub fn say_stream_error(
    alloc: Global,
    stream_error: StreamError,
    out: &mut BytesMut,
) -> Result<(), AllocError>
    ensures { OnOk result (out.new.items ≡ out.old.items ++ told_stream_error stream_error) }
{
    let severity = field(alloc, b'S', stream_error.severity())?;
    let untranslated = field(alloc, b'V', stream_error.severity())?;
    let code = field(alloc, b'C', stream_error.code())?;
    let text = field(alloc, b'M', stream_error.text())?;
    let fields = Items::new(Vec::from_array(alloc, [severity, untranslated, code, text])?);
    write_back(&Back::ErrorResponse(ErrorResponse { fields }), out)
}

fn field(alloc: Global, code: u8, text: &str) -> Result<ErrorField, AllocError>
    ensures { IfOk result (λ f. f ≡ record { code = code; text = text.now }) }
{
    Ok(ErrorField {
        code,
        text: Text::copy_of(alloc, text)?,
    })
}
