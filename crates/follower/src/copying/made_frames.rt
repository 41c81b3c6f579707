//! A copy as a transaction of a stream.

ghost use Rattle.std.specs.Prelude.{◌≡◌, true};
ghost use Rattle.pgoutput.specs.Logical.{IsShort};
ghost use Rattle.pgoutput.specs.Tuple.{IsShortCell, IsShortTuple};

use crate::fault::FollowFault;
use bytes::BytesMut;
use client::ClientFault;
use copyboth::write_xlogdata;
use frames::{COPY_DATA, put_byte, put_int32};
use pgoutput::{Begin, Cell, Commit, Insert, Logical, Relation, write_logical};
use pqformat::Items;
use std::alloc::Global;

/// The frames of a stream that hold one transaction of inserts: the rows of a copy. It ends at the point of the copy's slot, so
/// that whoever has it goes on there; its commit record begins one byte before, and its xid and times are 0, as no transaction's
/// are.
#[derive(Drop)]
pub(crate) struct MadeFrames {
    alloc: Global,
    frames: BytesMut,
    point: u64,
}

/// The most bytes of a message, and of a value. PostgreSQL has none that are longer (PostgreSQL 15, appendix K).
const MOST_MESSAGE_BYTES: usize = 1 << 30;

/// The most values of a row: a count of 16 bits has a sign.
const MOST_CELLS: usize = 1 << 15;

/// What the length of a frame counts before its message: itself, and the head of an XLogData.
const HEAD_LENGTH: u32 = 29;

impl MadeFrames {
    /// Of a copy of this point, with its Begin.
    pub(crate) fn begin(alloc: Global, point: u64) -> Result<Self, FollowFault> {
        let mut made = MadeFrames {
            alloc,
            frames: BytesMut::new(alloc),
            point,
        };
        let begin = Logical::Begin(Begin {
            position: made.start(),
            time: 0,
            xid: 0,
        });
        made.add(begin)?;
        Ok(made)
    }

    /// Where its commit record begins.
    fn start(&self) -> u64 {
        self.point.saturating_sub(1)
    }

    /// Adds what is told of a table.
    pub(crate) fn add_table(&mut self, table: Relation) -> Result<(), FollowFault> {
        self.add(Logical::Relation(table))
    }

    /// Adds a row of the table of this OID.
    pub(crate) fn add_row(&mut self, oid: u32, cells: Vec<Cell>) -> Result<(), FollowFault> {
        self.add(Logical::Insert(Insert {
            oid,
            new: Items::new(cells),
        }))
    }

    fn add(&mut self, message: Logical) -> Result<(), FollowFault> {
        let mut payload = BytesMut::new(self.alloc);
        let written = write_short(&message, &mut payload);
        drop(message);
        written?;
        if MOST_MESSAGE_BYTES < payload.len() {
            return Err(FollowFault::Client(ClientFault::Frame));
        }
        put_byte(&mut self.frames, COPY_DATA)?;
        put_int32(&mut self.frames, HEAD_LENGTH + payload.len() as u32)?;
        let (start, end) = (self.start(), self.point);
        write_xlogdata(start, end, 0, payload.as_slice(), &mut self.frames)?;
        Ok(())
    }

    /// All frames, with the Commit.
    pub(crate) fn end(mut self) -> Result<BytesMut, FollowFault> {
        let commit = Logical::Commit(Commit {
            position: self.start(),
            end: self.point,
            time: 0,
        });
        self.add(commit)?;
        let MadeFrames { frames, .. } = self;
        Ok(frames)
    }
}

/// Writes a message, unless a count or a length doesn't fit its field (K1).
fn write_short(message: &Logical, out: &mut BytesMut) -> Result<(), FollowFault> {
    if !is_short(message) {
        return Err(FollowFault::Client(ClientFault::Frame));
    }
    Ok(write_logical(message, out)?)
}

/// Whether the counts and lengths of a message that a copy has fit their fields.
fn is_short(message: &Logical) -> bool
    ensures { result ≡ true → IsShort message.now }
{
    match message {
        Logical::Insert(insert) => is_short_row(insert.new.as_slice()),
        Logical::Relation(relation) => relation.columns.len() < MOST_CELLS,
        Logical::Begin(_) | Logical::Commit(_) => true,
        Logical::Update(_) | Logical::Delete(_) | Logical::Truncate(_) | Logical::Message(_) => {
            false
        }
    }
}

fn is_short_row(cells: &[Cell]) -> bool
    ensures { result ≡ true → IsShortTuple cells.now }
{
    if MOST_CELLS <= cells.len() {
        return false;
    }
    for cell in cells {
        if !is_short_cell(cell) {
            return false;
        }
    }
    true
}

fn is_short_cell(cell: &Cell) -> bool
    ensures { result ≡ true → IsShortCell cell.now }
{
    match cell {
        Cell::Text(text) => text.as_str().len() <= MOST_MESSAGE_BYTES,
        Cell::Null | Cell::Unchanged => true,
    }
}
