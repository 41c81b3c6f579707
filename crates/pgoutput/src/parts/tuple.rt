//! Tuples, the values of a row as texts: the type of a value, and the reader and the writer of rows.

ghost use Rattle.std.specs.Prelude.{◌≡◌};
ghost use Rattle.pqformat.specs.Putting.{Puts};
ghost use Rattle.pgoutput.specs.Reading.{Gives};
ghost use Rattle.pgoutput.specs.Tuple.{cell_at, sent_cell_at, sent_tuple_at, tuple, tuple_at, IsShortTuple};

use crate::fault::PgoutputError;
use crate::parts::fields::{byte_of, count16_of, put_text, text_of};
use crate::parts::list::{PutItem, ReadItem, items_of, put_items};
use bytes::BytesMut;
use pqformat::{Cursor, Items, Text, put_byte};
use std::alloc::{AllocError, Global};

/// The letters of the cells.
pub const NULL: u8 = b'n';

pub const UNCHANGED: u8 = b'u';

pub const TEXT: u8 = b't';

/// A value of a row (PostgreSQL 15, 55.9, TupleData).
///
/// ```text
/// TupleData: Int16 count | for each value: Byte1('n') null
///                                        | Byte1('u') unchanged, not sent
///                                        | Byte1('t') | Int32 length | Byten text
/// ```
#[derive(Debug, Drop, PartialEq)]
pub enum Cell {
    Null,
    /// A long value that didn't change and isn't sent, in the new row of an Update. An Insert has none.
    Unchanged,
    Text(Text),
}

#[tactic(auto, unfolding(crate::specs::Tuple::cell_at))]
fn cell_of(alloc: Global, cursor: &mut Cursor<'_>) -> Result<Cell, PgoutputError>
    ensures { Gives result cursor.new (cell_at cursor.old) }
{
    match byte_of(cursor)? {
        NULL => Ok(Cell::Null),
        UNCHANGED => Ok(Cell::Unchanged),
        TEXT => Ok(Cell::Text(text_of(alloc, cursor)?)),
        _ => Err(PgoutputError::BadMark),
    }
}

/// A cell of an Insert, whose value is sent: null, or a text.
#[tactic(auto, unfolding(crate::specs::Tuple::sent_cell_at))]
fn sent_cell_of(alloc: Global, cursor: &mut Cursor<'_>) -> Result<Cell, PgoutputError>
    ensures { Gives result cursor.new (sent_cell_at cursor.old) }
{
    match byte_of(cursor)? {
        NULL => Ok(Cell::Null),
        TEXT => Ok(Cell::Text(text_of(alloc, cursor)?)),
        _ => Err(PgoutputError::BadMark),
    }
}

#[tactic(auto, unfolding(crate::specs::Tuple::tuple_at))]
pub(crate) fn tuple_of(alloc: Global, cursor: &mut Cursor<'_>) -> Result<Items<Cell>, PgoutputError>
    ensures { Gives result cursor.new (tuple_at cursor.old) }
{
    let count = count16_of(cursor)?;
    items_of::<Cell>(alloc, cursor, count as usize)
}

/// The tuple of an Insert, of which every value is sent.
#[tactic(auto, unfolding(crate::specs::Tuple::sent_tuple_at))]
pub(crate) fn sent_tuple_of(
    alloc: Global,
    cursor: &mut Cursor<'_>,
) -> Result<Items<Cell>, PgoutputError>
    ensures { Gives result cursor.new (sent_tuple_at cursor.old) }
{
    let count = count16_of(cursor)?;
    items_of::<SentCell>(alloc, cursor, count as usize)
}

pub(crate) fn put_tuple(out: &mut BytesMut, cells: &Items<Cell>) -> Result<(), AllocError>
    requires { IsShortTuple cells.now }
    ensures { Puts result out.old.items out.new.items (tuple cells.now) }
{
    put_items(out, cells.as_slice())
}

impl ReadItem for Cell {
    ghost use Rattle.pgoutput.specs.Tuple.{cell_at};

    type Item = Cell;

    ghost item_at = { cell_at };

    fn read(alloc: Global, cursor: &mut Cursor<'_>) -> Result<Cell, PgoutputError> {
        cell_of(alloc, cursor)
    }
}

/// Reads a cell of an Insert.
struct SentCell;

impl ReadItem for SentCell {
    ghost use Rattle.pgoutput.specs.Tuple.{sent_cell_at};

    type Item = Cell;

    ghost item_at = { sent_cell_at };

    fn read(alloc: Global, cursor: &mut Cursor<'_>) -> Result<Cell, PgoutputError> {
        sent_cell_of(alloc, cursor)
    }
}

impl PutItem for Cell {
    ghost use Rattle.pgoutput.specs.Tuple.{cell, IsShortCell};

    ghost spelled = { cell };

    ghost is_short = { IsShortCell };

    #[tactic(auto, using(pqformat::proofs::Putting::in_place))]
    fn put(&self, out: &mut BytesMut) -> Result<(), AllocError> {
        match self {
            Cell::Null => put_byte(out, NULL),
            Cell::Unchanged => put_byte(out, UNCHANGED),
            Cell::Text(text) => {
                put_byte(out, TEXT)?;
                put_text(out, text)
            }
        }
    }
}
