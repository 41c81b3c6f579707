//! The tuples of rows, written where they are sent from.

ghost use Rattle.std.specs.Prelude.{◌≡◌, ◌+◌, ◌<◌, ◌≤◌, ◌^◌, ◌&&◌, not, get_or, length, if◌then◌else◌};
ghost use Rattle.std.specs.List.{list_any, zip};
ghost use Rattle.pgoutput.specs.Tuple.{cell, tuple};
ghost use Rattle.pgoutput.specs.declared.parts.tuple.Cell.TheVariants as cells;
ghost use Rattle.row_messages.specs.Relations.{listed_items};
ghost use Rattle.pqformat.specs.Writing.{FitsRoom, Writes};
ghost use Rattle.row_messages.specs.Kinds.{cell_of, same_value};
ghost use Rattle.row_messages.specs.Tuples.{cell_after, changes_key, key_tuple_of, tuple_after, tuple_of};
ghost use Rattle.tables.specs.Kinds.{value_of};
ghost use Rattle.tables.specs.declared.kinds.Value.TheVariants as values;

use crate::kinds::{is_long, is_same, put_cell};
use pgoutput::{NULL, UNCHANGED};
use pqformat::{write_byte, write_int16};
use publication_config::is_listed;
use tables::{Column, RowRef, ValueRef};

/// The tuple of the listed columns of a row (PostgreSQL 15, 55.9, TupleData).
pub(crate) fn put_tuple(out: &mut [u8], at: usize, listed: &[bool], row: &RowRef<'_>) -> usize
    requires room { FitsRoom at out.old (tuple (tuple_of (listed_items listed.now row.now))) }
    requires few { length row.now < 2 ^ 15 }
    ensures { Writes at result out.old out.new
        (tuple (tuple_of (listed_items listed.now row.now))) }
{
    let mut end = write_int16(out, at, count_listed(listed, row) as u16);
    for i in 0..row.len() {
        if is_listed(listed, i) {
            end = put_cell(out, end, value_in(row, i));
        }
    }
    end
}

/// The same of a row that took the place of another one: a long text that stayed the same isn't sent.
pub(crate) fn put_tuple_after(
    out: &mut [u8],
    at: usize,
    listed: &[bool],
    old: &RowRef<'_>,
    new: &RowRef<'_>,
) -> usize
    requires room { FitsRoom at out.old
        (tuple (tuple_after (listed_items listed.now old.now) (listed_items listed.now new.now))) }
    requires few { length old.now < 2 ^ 15 }
    requires same { length old.now ≡ length new.now }
    ensures { Writes at result out.old out.new
        (tuple (tuple_after (listed_items listed.now old.now) (listed_items listed.now new.now))) }
{
    let mut end = write_int16(out, at, count_listed(listed, old) as u16);
    for i in 0..old.len() {
        let before = value_in(old, i);
        let value = value_in(new, i);
        if is_listed(listed, i) {
            end = put_cell_after(out, end, before, value);
        }
    }
    end
}

fn put_cell_after(out: &mut [u8], at: usize, old: ValueRef<'_>, new: ValueRef<'_>) -> usize
    requires { FitsRoom at out.old (cell (cell_after (value_of old) (value_of new))) }
    ensures { Writes at result out.old out.new
        (cell (cell_after (value_of old.entry) (value_of new.entry))) }
{
    if is_long(new) && is_same(old, new) {
        return write_byte(out, at, UNCHANGED);
    }
    put_cell(out, at, new)
}

/// The cells of the primary key of a row, with as many cells as listed columns.
pub(crate) fn put_key_tuple(
    out: &mut [u8],
    at: usize,
    columns: &[Column],
    listed: &[bool],
    row: &RowRef<'_>,
) -> usize
    requires room { FitsRoom at out.old
        (tuple
        (key_tuple_of (listed_items listed.now columns.now) (listed_items listed.now row.now))) }
    requires few { length columns.now < 2 ^ 15 }
    requires same { length columns.now ≡ length row.now }
    ensures { Writes at result out.old out.new
        (tuple
        (key_tuple_of (listed_items listed.now columns.now) (listed_items listed.now row.now))) }
{
    let mut end = write_int16(out, at, count_listed(listed, row) as u16);
    for i in 0..columns.len() {
        let column = &columns[i];
        let value = value_in(row, i);
        if is_listed(listed, i) {
            end = put_key_cell(out, end, column, value);
        }
    }
    end
}

/// The cell of a column of the key, null for another column.
fn put_key_cell(out: &mut [u8], at: usize, column: &Column, value: ValueRef<'_>) -> usize
    requires { FitsRoom at out.old
        (cell (if column.now.is_key then cell_of (value_of value) else cells.Null)) }
    ensures { Writes at result out.old out.new
        (cell (if column.now.is_key then cell_of (value_of value.entry) else cells.Null)) }
{
    if !column.is_key {
        return write_byte(out, at, NULL);
    }
    put_cell(out, at, value)
}

/// Whether a listed column of the primary key has one value in the one row and another one in the other.
pub(crate) fn changes_key_in(
    columns: &[Column],
    listed: &[bool],
    old: &RowRef<'_>,
    new: &RowRef<'_>,
) -> bool
    requires old { length columns.now ≡ length old.now }
    requires new { length old.now ≡ length new.now }
    ensures { result
        ≡ changes_key (listed_items listed.now columns.now) (listed_items listed.now old.now)
        (listed_items listed.now new.now) }
{
    for i in 0..columns.len() {
        let column = &columns[i];
        let before = value_in(old, i);
        let value = value_in(new, i);
        if is_listed(listed, i) && is_other_key(column, before, value) {
            return true;
        }
    }
    false
}

/// Whether the column belongs to the key, and has another value.
fn is_other_key(column: &Column, old: ValueRef<'_>, new: ValueRef<'_>) -> bool
    ensures { result
        ≡ (column.now.is_key && not (same_value (value_of old.entry) (value_of new.entry))) }
{
    column.is_key && !is_same(old, new)
}

/// How many columns are listed.
fn count_listed(listed: &[bool], row: &RowRef<'_>) -> usize
    ensures value { result ≡ length (listed_items listed.now row.now) }
    ensures few { result ≤ length row.now }
{
    let mut count = 0;
    for i in 0..row.len() {
        if is_listed(listed, i) {
            count += 1;
        }
    }
    count
}

fn value_in<'a>(row: &RowRef<'a>, place: usize) -> ValueRef<'a>
    requires { place < length row.now }
    ensures { value_of result ≡ get_or row.now place values.Null }
{
    match row.get(place) {
        Some(value) => value,
        None => unreachable!(),
    }
}
