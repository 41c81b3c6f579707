//! A subscriber: what it takes of a stream, and what it shows and tells.

use crate::wording::answer::{add_value, bytes_of};
use anyhow::{Context, Result};
use client::{Applied, Applier, ClientFault};
use message_lines::render;
use pgoutput::{Begin, Commit, Logical, read_logical};
use std::alloc::{AllocError, Global};

/// Pieces of a stream in digits, a comma after each; a dot among them begins another connection. Adds what each piece was answered,
/// and then the position and the lines of what was applied.
pub fn answer_applied(alloc: Global, given: &str, answer: &mut String) -> Result<()> {
    add_stream(alloc, &mut Applier::new(alloc), given, answer)
}

fn add_stream(
    alloc: Global,
    applier: &mut Applier,
    given: &str,
    answer: &mut String,
) -> Result<()> {
    add_pieces(alloc, applier, given, answer)?;
    Ok(add_all(alloc, applier, answer)?)
}

fn add_pieces(
    alloc: Global,
    applier: &mut Applier,
    given: &str,
    answer: &mut String,
) -> Result<()> {
    answer.push('=')?;
    for piece in given.split_terminator(',') {
        add_piece(alloc, applier, piece, answer)?;
    }
    Ok(())
}

fn add_piece(alloc: Global, applier: &mut Applier, piece: &str, answer: &mut String) -> Result<()> {
    if piece == "." {
        applier.reconnect();
        return Ok(answer.push_str(" reconnect")?);
    }
    let bytes = bytes_of(alloc, piece)?;
    add_taken(alloc, applier.take(bytes.as_slice()), answer)
}

fn add_taken(alloc: Global, came: Result<(), ClientFault>, answer: &mut String) -> Result<()> {
    match came {
        Ok(()) => Ok(answer.push_str(" taken")?),
        Err(fault) => Ok(add_value(answer, &fault.to_string(alloc)?)?),
    }
}

fn add_all(alloc: Global, applier: &Applier, answer: &mut String) -> Result<(), AllocError> {
    write!(answer, " {}", applier.position())?;
    for applied in applier.applied() {
        add_applied(alloc, applied, answer)?;
    }
    Ok(())
}

fn add_applied(alloc: Global, applied: &Applied, answer: &mut String) -> Result<(), AllocError> {
    let begin = Begin {
        position: applied.start,
        time: applied.time,
        xid: applied.xid,
    };
    let commit = Commit {
        position: applied.start,
        end: applied.end,
        time: applied.time,
    };
    write!(
        answer,
        " Applied({:?}",
        line_of(alloc, Logical::Begin(begin))?
    )?;
    add_changes(alloc, applied, answer)?;
    write!(answer, ", {:?})", line_of(alloc, Logical::Commit(commit))?)
}

fn add_changes(alloc: Global, applied: &Applied, answer: &mut String) -> Result<(), AllocError> {
    for change in applied.changes.as_slice() {
        let line = render(alloc, &change.message)?;
        write!(answer, ", {}, {line:?}", change.position)?;
    }
    Ok(())
}

/// The line of the message that the bytes spell.
pub fn answer_render(alloc: Global, bytes: &[u8], answer: &mut String) -> Result<()> {
    let line = line_of(alloc, read_logical(alloc, bytes)?)?;
    Ok(write!(answer, "= {line}")?)
}

fn line_of(alloc: Global, message: Logical) -> Result<String, AllocError> {
    let line = render(alloc, &message);
    drop(message);
    line
}

/// The frame of a status: `STREAM CLOCK asks`, or `silent` in place of `asks`.
pub fn answer_status(alloc: Global, given: &str, answer: &mut String) -> Result<()> {
    let (stream, rest) = given.split_once(' ').context("gives no clock")?;
    let (clock, asks) = rest.split_once(' ').context("says not whether it asks")?;
    let clock = clock.parse::<i64>().context("reading the clock")?;
    add_status_after(alloc, stream, clock, asks == "asks", answer)
}

fn add_status_after(
    alloc: Global,
    stream: &str,
    clock: i64,
    ask: bool,
    answer: &mut String,
) -> Result<()> {
    let bytes = bytes_of(alloc, stream)?;
    add_status(
        &mut Applier::new(alloc),
        bytes.as_slice(),
        clock,
        ask,
        answer,
    )
}

fn add_status(
    applier: &mut Applier,
    stream: &[u8],
    clock: i64,
    ask: bool,
    answer: &mut String,
) -> Result<()> {
    applier.take(stream)?;
    Ok(write!(answer, "= {:?}", applier.status(clock, ask))?)
}
