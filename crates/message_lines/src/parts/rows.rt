//! Rows: the values, each with the name and the type of its column.

ghost use Rattle.std.specs.Prelude.{◌≡◌, [], ◌∷◌, ◌++◌, OnOk};
ghost use Rattle.json.specs.Token.{key};
ghost use Rattle.json.specs.Tree.{items_tokens, json_tokens};
ghost use Rattle.message_lines.specs.Rows.{cell_tokens, cells_items, column_front, is_told, row_json};
ghost use Rattle.message_lines.specs.Values.{value_json};
ghost use Rattle.json.specs.Json.{null};
ghost use Rattle.message_lines.specs.Rows.{column_json};
ghost use Rattle.pgoutput.specs.declared.parts.tuple.Cell.TheVariants as cells;

use crate::fault::LineFault;
use crate::parts::members::put_text;
use crate::parts::told_values::ToldValues;
use crate::parts::values::put_value;
use crate::telling::kinds::put_kind;
use json::Writer;
use pgoutput::{Cell, Column, Relation};
use std::alloc::{AllocError, Global};

/// The member of a row.
pub(crate) fn put_row(
    alloc: Global,
    out: &mut Writer,
    name: &str,
    part: ToldValues,
    relation: &Relation,
    row: &[Cell],
) -> Result<(), LineFault>
    ensures tokens { OnOk result
        (out.new.tokens
        ≡ out.old.tokens ++ key name.now ∷ json_tokens (row_json part relation.now row.now)) }
    ensures before { out.new.before ≡ out.old.before }
{
    out.key(name)?;
    out.begin_array()?;
    put_cells(alloc, out, part, relation.columns.as_slice(), row)?;
    Ok(())
}

/// The values in a row, and its end. They have to be as many as the columns.
fn put_cells(
    alloc: Global,
    out: &mut Writer,
    part: ToldValues,
    columns: &[Column],
    row: &[Cell],
) -> Result<(), LineFault>
    ensures tokens { OnOk result
        (out.new.tokens ≡ out.old.tokens ++ items_tokens (cells_items part columns.now row.now)) }
    ensures before { out.new.before ≡ out.old.before }
{
    let mut left = columns;
    let mut cells = row;
    while let Some((column, more)) = left.split_first() {
        let Some((cell, rest)) = cells.split_first() else {
            return Err(LineFault::Shape);
        };
        put_cell(alloc, out, part, column, cell)?;
        left = more;
        cells = rest;
    }
    if !cells.is_empty() {
        return Err(LineFault::Shape);
    }
    out.end_array()?;
    Ok(())
}

/// A value with its column. One that didn't change and wasn't sent is left out.
fn put_cell(
    alloc: Global,
    out: &mut Writer,
    part: ToldValues,
    column: &Column,
    cell: &Cell,
) -> Result<(), AllocError>
    ensures tokens { OnOk result
        (out.new.tokens ≡ out.old.tokens ++ cell_tokens part column.now cell.now) }
    ensures before { out.new.before ≡ out.old.before }
{
    match cell {
        Cell::Unchanged => Ok(()),
        Cell::Null => put_null(alloc, out, part, column),
        Cell::Text(text) => put_sent(alloc, out, column, text.as_str()),
    }
}

fn put_null(
    alloc: Global,
    out: &mut Writer,
    part: ToldValues,
    column: &Column,
) -> Result<(), AllocError>
    ensures tokens { OnOk result
        (out.new.tokens ≡ out.old.tokens ++ cell_tokens part column.now cells.Null) }
    ensures before { out.new.before ≡ out.old.before }
{
    if !is_told(part, column) {
        return Ok(());
    }
    begin_column(alloc, out, column)?;
    out.null()?;
    out.end_object()?;
    Ok(())
}

fn put_sent(alloc: Global, out: &mut Writer, column: &Column, text: &str) -> Result<(), AllocError>
    ensures tokens { OnOk result
        (out.new.tokens
        ≡ out.old.tokens
        ++ json_tokens (column_json column.now (value_json column.now.kind text.now))) }
    ensures before { out.new.before ≡ out.old.before }
{
    begin_column(alloc, out, column)?;
    put_value(out, column.kind, text)?;
    out.end_object()?;
    Ok(())
}

/// All of a column's object up to its value.
fn begin_column(alloc: Global, out: &mut Writer, column: &Column) -> Result<(), AllocError>
    ensures tokens { OnOk result (out.new.tokens ≡ out.old.tokens ++ column_front column.now) }
    ensures before { out.new.before ≡ out.old.before }
{
    out.begin_object()?;
    put_text(out, "name", column.name.as_str())?;
    put_kind(alloc, out, column.kind, column.modifier)?;
    out.key("value")?;
    Ok(())
}

/// Whether a null of the column is told.
fn is_told(part: ToldValues, column: &Column) -> bool
    ensures { result ≡ is_told part column.now }
{
    match part {
        ToldValues::Whole => true,
        ToldValues::Key => column.is_key,
    }
}
