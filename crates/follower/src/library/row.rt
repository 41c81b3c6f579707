//! A row of a stream, whose values are asked for by the names of their columns.

ghost use Rattle.std.specs.Prelude.{◌≡◌, ◌&&◌, ◌<◌, ℕ, IfOk, IfSome, None, Some, get_or, length, position, slice_get, string_bytes};
ghost use Rattle.std.specs.Option.{option_and_then, option_copied, option_map};
ghost use Rattle.std.specs.Str.{bytes_eq};
ghost use Rattle.pgoutput.specs.declared.parts.tuple.Cell.TheVariants as cells;
ghost use Rattle.follower.specs.Rows.{cell_named, kept_of};

use pgoutput::{Cell, Column, Relation};
use std::alloc::{AllocError, Global};

/// The OIDs of the types with values of Rust (PostgreSQL 15, pg_type).
const BOOL_OID: u32 = 16;

const INT8_OID: u32 = 20;

const INT2_OID: u32 = 21;

const INT4_OID: u32 = 23;

/// A row of a table, or what is told of the old one: its key, or all of it.
#[derive(Clone, Copy)]
pub struct Row<'a> {
    pub(crate) relation: &'a Relation,
    pub(crate) cells: &'a [Cell],
}

impl<'a> Row<'a> {
    /// What was told of its table: OID, schema, name, and the columns that are published.
    pub fn table(&self) -> &'a Relation
        ensures { result.now ≡ self.now.relation.now }
    {
        self.relation
    }

    /// What was sent of each column, in the order of the table's columns.
    pub fn cells(&self) -> &'a [Cell]
        ensures { result.now ≡ self.now.cells.now }
    {
        self.cells
    }

    /// The values as one keeps them, in the order of the table's columns: null, or a text. A long one that is unchanged and wasn't sent
    /// is as it was before. `AllocError` where memory for them is refused.
    pub fn values(
        &self,
        alloc: Global,
        before: &[Option<String>],
    ) -> Result<Vec<Option<String>>, AllocError>
        ensures { IfOk result (λ values. (length values.items ≡ length self.now.cells.now)
            × ((i : ℕ) → i < length self.now.cells.now →
            option_map string_bytes (get_or values.items i None)
            ≡ kept_of (get_or self.now.cells.now i cells.Null)
            (option_and_then (option_map string_bytes) (slice_get before.now i)))) }
    {
        let mut values = Vec::new(alloc);
        for (at, cell) in self.cells.iter().enumerate() {
            values.push(value_of(alloc, cell, before, at)?)?;
        }
        Ok(values)
    }

    /// Whether it is of the table of this schema and name.
    pub fn is_of(&self, schema: &str, name: &str) -> bool
        ensures { result
            ≡ (bytes_eq self.now.relation.now.namespace schema.now
            && bytes_eq self.now.relation.now.name name.now) }
    {
        self.relation.namespace.as_str() == schema && self.relation.name.as_str() == name
    }

    /// What was sent of the column of this name: null, a text, or that it is unchanged and not sent. None where there is no such column.
    pub fn cell(&self, column: &str) -> Option<&'a Cell>
        ensures { option_copied result
            ≡ cell_named self.now.relation.now.columns self.now.cells.now column.now }
    {
        self.cells
            .get(place_of(self.relation.columns.as_slice(), column)?)
    }

    /// The text of the column of this name, as PostgreSQL prints a value of its type; None where none was sent.
    pub fn text(&self, column: &str) -> Option<&'a str>
        ensures { IfSome result (λ text.
            cell_named self.now.relation.now.columns self.now.cells.now column.now
            ≡ Some (cells.Text text.now)) }
    {
        match self.cell(column)? {
            Cell::Text(text) => Some(text.as_str()),
            Cell::Null | Cell::Unchanged => None,
        }
    }

    /// The bool in the column of this name; None where it isn't one.
    pub fn bool(&self, column: &str) -> Option<bool> {
        match self.text_of_type(column, BOOL_OID)? {
            "t" => Some(true),
            "f" => Some(false),
            _ => None,
        }
    }

    /// The int2 in the column of this name; None where it isn't one.
    pub fn int2(&self, column: &str) -> Option<i16> {
        self.text_of_type(column, INT2_OID)?.parse::<i16>().ok()
    }

    /// The int4 in the column of this name; None where it isn't one.
    pub fn int4(&self, column: &str) -> Option<i32> {
        self.text_of_type(column, INT4_OID)?.parse::<i32>().ok()
    }

    /// The int8 in the column of this name; None where it isn't one.
    pub fn int8(&self, column: &str) -> Option<i64> {
        self.text_of_type(column, INT8_OID)?.parse::<i64>().ok()
    }

    /// The text of the column of this name, if it is of the type of this OID.
    fn text_of_type(&self, column: &str, oid: u32) -> Option<&'a str>
        ensures { IfSome result (λ text.
            cell_named self.now.relation.now.columns self.now.cells.now column.now
            ≡ Some (cells.Text text.now)) }
    {
        let columns = self.relation.columns.as_slice();
        if columns.get(place_of(columns, column)?)?.kind != oid {
            return None;
        }
        self.text(column)
    }
}

/// The value of a cell that stands there, and had its value before there.
fn value_of(
    alloc: Global,
    cell: &Cell,
    before: &[Option<String>],
    at: usize,
) -> Result<Option<String>, AllocError>
    ensures { IfOk result (λ value. option_map string_bytes value
        ≡ kept_of cell.now (option_and_then (option_map string_bytes) (slice_get before.now at))) }
{
    match cell {
        Cell::Null => Ok(None),
        Cell::Text(text) => Ok(Some(String::from_str(alloc, text.as_str())?)),
        Cell::Unchanged => copy_of(before.get(at)),
    }
}

fn copy_of(value: Option<&Option<String>>) -> Result<Option<String>, AllocError>
    ensures { IfOk result (λ copy. option_map string_bytes copy
        ≡ option_and_then (option_map string_bytes) (option_copied value.entry)) }
{
    match value {
        Some(Some(text)) => Ok(Some(text.clone()?)),
        Some(None) | None => Ok(None),
    }
}

/// Where the column of this name stands.
fn place_of(columns: &[Column], name: &str) -> Option<usize>
    ensures { result ≡ position (λ c. bytes_eq c.name name.now) columns.now }
{
    columns
        .iter()
        .position(|column| column.name.as_str() == name)
}
