//! What an initial copy hands over of a row.

ghost use Rattle.std.specs.Prelude.{◌≡◌, map, IfOk, IfSome};
ghost use Rattle.server.specs.RowText.{AreShortValues, IsShortValue};
ghost use Rattle.server_state.specs.Copies.{copied_row, text_of};

use pgoutput::{Cell, Logical};
use pqformat::{Items, Text};
use publication::{Projected, Selection};
use std::alloc::{AllocError, Global};
use tables::{Change, MAX_COLUMNS, Row};

/// No value of a row has more bytes.
const MOST_VALUE_BYTES: usize = 65_535;

/// The values of a row of this table under the copy's column list, a null being None. None: the copy doesn't have the row.
/// More values or longer ones than a row can have are refused as for want of memory.
pub(crate) fn copied_row(
    alloc: Global,
    copied: &Selection,
    oid: u32,
    row: Row,
) -> Result<Option<Items<Option<Text>>>, AllocError>
    ensures copied { IfOk result (λ found. found ≡ copied_row copied.now oid row) }
    ensures short { IfOk result (λ found. IfSome found AreShortValues) }
{
    match copied.project(0, &Change::Insert(oid, row))? {
        Projected::Message(Logical::Insert(insert)) => Ok(Some(texts_of(alloc, insert.new)?)),
        _ => Ok(None),
    }
}

fn texts_of(alloc: Global, cells: Items<Cell>) -> Result<Items<Option<Text>>, AllocError>
    ensures texts { IfOk result (λ texts. texts ≡ map text_of cells) }
    ensures short { IfOk result AreShortValues }
{
    if cells.len() > MAX_COLUMNS {
        return Err(AllocError);
    }
    let mut texts = Vec::with_capacity(alloc, cells.len())?;
    for cell in cells.into_vec() {
        texts.push(text_of(cell)?)?;
    }
    Ok(Items::new(texts))
}

/// The text of a value, if that is no null.
fn text_of(cell: Cell) -> Result<Option<Text>, AllocError>
    ensures text { IfOk result (λ text. text ≡ text_of cell) }
    ensures short { IfOk result IsShortValue }
{
    match cell {
        Cell::Null | Cell::Unchanged => Ok(None),
        Cell::Text(text) if text.as_str().len() > MOST_VALUE_BYTES => Err(AllocError),
        Cell::Text(text) => Ok(Some(text)),
    }
}
