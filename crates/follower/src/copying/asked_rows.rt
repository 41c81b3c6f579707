//! Rows that answer a question.

use crate::fault::FollowFault;
use crate::login::asking::{End, end_of, send_query};
use crate::receiving::incoming::Incoming;
use client::ClientFault;
use frames::{Back, DataRow, DataValue};
use std::alloc::Global;
use std::io::{Read, Write};
use std::sync::Wait;

/// A value of a row: a text, or null.
pub(crate) type TextValue = Option<String>;

/// Asks, and answers the rows. Faults as of `start_stream`, and `Client` where a value is no text (K1) or the answer is another one
/// (K2).
pub(crate) fn ask_rows<R: Wait, S: Read + Write>(
    rt: &R,
    alloc: Global,
    incoming: &mut Incoming,
    socket: &mut S,
    text: String,
) -> Result<Vec<Vec<TextValue>>, FollowFault> {
    send_query(alloc, socket, text)?;
    let mut rows = Vec::new(alloc);
    take_rows(rt, alloc, incoming, socket, &mut rows)?;
    Ok(rows)
}

fn take_rows<R: Wait, S: Read>(
    rt: &R,
    alloc: Global,
    incoming: &mut Incoming,
    socket: &mut S,
    rows: &mut Vec<Vec<TextValue>>,
) -> Result<(), FollowFault> {
    for _ in rt.forever() {
        let (frame, length) = incoming.next(rt, socket)?;
        incoming.pass(length);
        if take_row(alloc, frame, rows)? {
            return Ok(());
        }
    }
    Err(FollowFault::Ended)
}

/// Takes a frame of the answer: a row is kept. Whether it is the last.
fn take_row(
    alloc: Global,
    frame: Back,
    rows: &mut Vec<Vec<TextValue>>,
) -> Result<bool, FollowFault> {
    match frame {
        Back::DataRow(row) => {
            rows.push(values_of(alloc, row)?)?;
            Ok(false)
        }
        other => match end_of(other)? {
            None => Ok(false),
            Some(End::ReadyForQuery) => Ok(true),
            Some(End::CopyBothResponse) => Err(FollowFault::Client(ClientFault::Order)),
        },
    }
}

fn values_of(alloc: Global, row: DataRow) -> Result<Vec<TextValue>, FollowFault> {
    let mut values = Vec::new(alloc);
    for value in row.values.into_vec() {
        match value {
            DataValue::Null => values.push(None)?,
            DataValue::Bytes(bytes) => match String::from_utf8(bytes.into_vec()) {
                Ok(text) => values.push(Some(text))?,
                Err(_) => return Err(FollowFault::Client(ClientFault::Frame)),
            },
        }
    }
    Ok(values)
}

/// The text of a row's value at a place. `Client` (K2) where there is none.
pub(crate) fn text_at(row: &[TextValue], at: usize) -> Result<&str, FollowFault> {
    match row.get(at) {
        Some(Some(text)) => Ok(text.as_str()),
        Some(None) | None => Err(FollowFault::Client(ClientFault::Order)),
    }
}

/// The number of a row's value at a place. `Client` (K2) where there is none.
pub(crate) fn number_at(row: &[TextValue], at: usize) -> Result<u32, FollowFault> {
    match text_at(row, at)?.parse::<u32>() {
        Ok(number) => Ok(number),
        Err(_) => Err(FollowFault::Client(ClientFault::Order)),
    }
}
