//! A row as COPY tells it.

ghost use Rattle.std.specs.Prelude.{◌≡◌, ℕ, List, Option, IfOk};
ghost use Rattle.follower.specs.CopiedRows.{cell_of as told_cell, escaped, field_of, meant_by};

use crate::fault::FollowFault;
use client::ClientFault;
use pgoutput::Cell;
use pqformat::Text;
use std::alloc::{AllocError, Global};

/// What a null is told by.
const NULL: &[u8] = b"\\N";

/// The values of a line, without its end, in the text format of COPY (PostgreSQL 15, COPY, Text Format). `Client` where a value
/// isn't UTF-8 (K1) or memory is refused (K5).
pub(crate) fn cells_of(alloc: Global, line: &[u8]) -> Result<Vec<Cell>, FollowFault> {
    let mut cells = Vec::new(alloc);
    match add_cells(alloc, line, &mut cells) {
        Ok(()) => Ok(cells),
        Err(fault) => {
            // Let go before the way out, which keeps the proof short.
            drop(cells);
            Err(fault)
        }
    }
}

fn add_cells(alloc: Global, line: &[u8], cells: &mut Vec<Cell>) -> Result<(), FollowFault> {
    for field in line.split(|byte| *byte == b'\t') {
        add_cell(alloc, field, cells)?;
    }
    Ok(())
}

fn add_cell(alloc: Global, field: &[u8], cells: &mut Vec<Cell>) -> Result<(), FollowFault> {
    Ok(cells.push(cell_of(alloc, field)?)?)
}

fn cell_of(alloc: Global, field: &[u8]) -> Result<Cell, FollowFault>
    ensures { IfOk result
        (λ cell. (value : Option (List ℕ)) → field.now ≡ field_of value → cell ≡ told_cell value) }
{
    if field == NULL {
        return Ok(Cell::Null);
    }
    match String::from_utf8(unescaped(alloc, field)?) {
        Ok(text) => Ok(Cell::Text(Text::new(text))),
        Err(_) => Err(FollowFault::Client(ClientFault::Frame)),
    }
}

/// The bytes of a value, with what each backslash and the letter after it stand for.
fn unescaped(alloc: Global, field: &[u8]) -> Result<Vec<u8>, AllocError>
    ensures { IfOk result
        (λ bytes. (value : List ℕ) → field.now ≡ escaped value → bytes.items ≡ value) }
{
    let mut bytes = Vec::new(alloc);
    let mut is_escaped = false;
    for byte in field {
        if is_escaped {
            bytes.push(meant_by(*byte))?;
            is_escaped = false;
        } else if *byte == b'\\' {
            is_escaped = true;
        } else {
            bytes.push(*byte)?;
        }
    }
    Ok(bytes)
}

/// What a letter means after a backslash.
fn meant_by(letter: u8) -> u8
    ensures { result ≡ meant_by letter }
{
    match letter {
        b'b' => 8,
        b't' => b'\t',
        b'n' => b'\n',
        b'v' => 11,
        b'f' => 12,
        b'r' => b'\r',
        letter => letter,
    }
}
