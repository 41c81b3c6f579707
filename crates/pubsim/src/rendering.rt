//! A stream as text: a line for each frame, in the words of `subcat`.

use copyboth::{ServerBody, read_server};
use frames::{Back, FrameFault, read_back};
use message_lines::render;
use pgoutput::{PgoutputError, read_logical};
use replcmd::write_position;
use std::alloc::Global;
use std::io;
use std::io::{ErrorKind, Write};

/// A connection's name and a colon, and after it a line for each frame that one start of its sender produced: the position that it
/// carries, and its message, or that it is a keepalive. What was produced of a last frame is told by its length.
pub fn write_rendered<W: Write>(
    alloc: Global,
    output: &mut W,
    connection: &str,
    produced: &[u8],
) -> io::Result<()> {
    writeln!(output, "{connection}:")?;
    let mut rest = produced;
    for _ in 0..produced.len() {
        let Some((frame, length)) = read_back(alloc, rest).map_err(of_frame)? else {
            break;
        };
        let written = write_frame(alloc, output, &frame);
        drop(frame);
        written?;
        rest = rest.get(length..).unwrap_or(&[]);
    }
    if !rest.is_empty() {
        writeln!(output, "  {} bytes of a frame", rest.len())?;
    }
    Ok(())
}

fn write_frame<W: Write>(alloc: Global, output: &mut W, frame: &Back) -> io::Result<()> {
    let Back::CopyData(data) = frame else {
        return Err(io::Error::from(ErrorKind::InvalidData));
    };
    match read_server(data.bytes.as_slice()) {
        Ok(ServerBody::XLogData(data)) => write_message(alloc, output, data.start, data.payload),
        Ok(ServerBody::Keepalive(keepalive)) => {
            write_keepalive(alloc, output, keepalive.end, keepalive.ask)
        }
        Err(_) => Err(io::Error::from(ErrorKind::InvalidData)),
    }
}

fn write_message<W: Write>(
    alloc: Global,
    output: &mut W,
    start: u64,
    payload: &[u8],
) -> io::Result<()> {
    let position = write_position(alloc, start)?;
    let line = line_of(alloc, payload)?;
    writeln!(output, "  {position} {line}")
}

fn line_of(alloc: Global, payload: &[u8]) -> io::Result<String> {
    let message = read_logical(alloc, payload).map_err(of_message)?;
    let line = render(alloc, &message);
    drop(message);
    Ok(line?)
}

fn write_keepalive<W: Write>(
    alloc: Global,
    output: &mut W,
    end: u64,
    asks: bool,
) -> io::Result<()> {
    let position = write_position(alloc, end)?;
    let asked = if asks { " ASKS" } else { "" };
    writeln!(output, "  {position} KEEPALIVE{asked}")
}

fn of_frame(fault: FrameFault) -> io::Error {
    match fault {
        FrameFault::Memory => io::Error::from(ErrorKind::OutOfMemory),
        _ => io::Error::from(ErrorKind::InvalidData),
    }
}

fn of_message(fault: PgoutputError) -> io::Error {
    match fault {
        PgoutputError::Memory => io::Error::from(ErrorKind::OutOfMemory),
        _ => io::Error::from(ErrorKind::InvalidData),
    }
}
