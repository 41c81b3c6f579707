//! The copy of one table.

use crate::copying::asked_rows::TextValue;
use crate::copying::copied_table::CopiedTable;
use crate::copying::made_frames::MadeFrames;
use crate::copying::questions;
use crate::copying::row_lines::RowLines;
use crate::fault::{FollowFault, told};
use crate::login::asking::send_query;
use crate::receiving::incoming::Incoming;
use client::ClientFault;
use frames::Back;
use pqformat::Text;
use std::alloc::Global;
use std::io::{Read, Write};
use std::sync::Wait;

/// Copies the table of this name: adds what is told of it, and its rows. Faults as of `CopiedTable::ask` and `RowLines::take`.
pub(crate) fn copy_table<R: Wait, S: Read + Write>(
    rt: &R,
    alloc: Global,
    incoming: &mut Incoming,
    socket: &mut S,
    name: &[TextValue],
    publications: &[Text],
    made: &mut MadeFrames,
) -> Result<(), FollowFault> {
    let table = CopiedTable::ask(rt, alloc, incoming, socket, name, publications)?;
    let mut lines = RowLines::new(alloc, &table.relation);
    let begun = begin_copy(alloc, socket, table, made);
    let taken = match begun {
        Ok(()) => take_copy(rt, incoming, socket, &mut lines, made),
        Err(fault) => Err(fault),
    };
    // Let go before the way out, which keeps the proof short.
    drop(lines);
    taken
}

/// Asks for the rows, and adds what is told of their table.
fn begin_copy<S: Write>(
    alloc: Global,
    socket: &mut S,
    table: CopiedTable,
    made: &mut MadeFrames,
) -> Result<(), FollowFault> {
    let asked = ask_for_rows(alloc, socket, &table);
    let CopiedTable { relation, filters } = table;
    drop(filters);
    match asked {
        Ok(()) => made.add_table(relation),
        Err(fault) => {
            // Let go before the way out, which keeps the proof short.
            drop(relation);
            Err(fault)
        }
    }
}

fn ask_for_rows<S: Write>(
    alloc: Global,
    socket: &mut S,
    table: &CopiedTable,
) -> Result<(), FollowFault> {
    let asked = questions::copy(alloc, &table.relation, table.filters.as_slice())?;
    send_query(alloc, socket, asked)
}

fn take_copy<R: Wait, S: Read>(
    rt: &R,
    incoming: &mut Incoming,
    socket: &mut S,
    lines: &mut RowLines,
    made: &mut MadeFrames,
) -> Result<(), FollowFault> {
    incoming.pass_copy_out(rt, socket)?;
    for _ in rt.forever() {
        let (frame, length) = incoming.next(rt, socket)?;
        incoming.pass(length);
        if take_frame(frame, lines, made)? {
            return Ok(());
        }
    }
    Err(FollowFault::Ended)
}

/// Takes a frame of the copy, and answers whether it is the last.
fn take_frame(
    frame: Back,
    lines: &mut RowLines,
    made: &mut MadeFrames,
) -> Result<bool, FollowFault> {
    match frame {
        Back::CopyData(data) => {
            lines.take(data.bytes.as_slice(), made)?;
            Ok(false)
        }
        Back::CopyDone | Back::CommandComplete(_) => Ok(false),
        Back::ReadyForQuery(_) => Ok(true),
        Back::ErrorResponse(error) => Err(told(error)),
        other => {
            drop(other);
            Err(FollowFault::Client(ClientFault::Order))
        }
    }
}
