//! A row whose values are asked for by the names of their columns.

ghost use Rattle.std.specs.Prelude.{◌≡◌, IfNone, IfSome, None, Some, position};
ghost use Rattle.std.specs.Str.{bytes_eq};
ghost use Rattle.std.specs.Option.{option_copied};
ghost use Rattle.tables.specs.declared.kinds.Value.TheVariants as values;
ghost use Rattle.named_rows.specs.Fields.{Shows, value_at, value_told};

use crate::datum::Datum;
use tables::{Column, Row, Table, Value};

/// A row of a table, where it lies.
#[derive(Clone, Copy)]
pub struct RowView<'a> {
    table: &'a Table,
    row: &'a Row,
}

impl<'a> RowView<'a> {
    /// Of a row whose values stand in the order of the table's columns.
    pub fn new(table: &'a Table, row: &'a Row) -> Self
        ensures { Shows table.now row.now result }
    {
        RowView { table, row }
    }

    /// What the row holds in the column of this name; None where the table has no such column.
    pub fn get(&self, column: &str) -> Option<Datum<'a>>
        ensures some { IfSome result (λ datum.
            value_at self.now.table.now.columns self.now.row.now column.now
            ≡ Some (value_told datum)) }
        ensures none { IfNone result
            (value_at self.now.table.now.columns self.now.row.now column.now ≡ None) }
    {
        let value = value_at(self.table.columns.as_slice(), self.row.values(), column)?;
        Some(Datum::of(value))
    }

    /// The bool in the column of this name; None where it isn't one.
    pub fn bool(&self, column: &str) -> Option<bool>
        ensures { IfSome result (λ b.
            value_at self.now.table.now.columns self.now.row.now column.now
            ≡ Some (values.Bool b)) }
    {
        match self.get(column)? {
            Datum::Bool(b) => Some(b),
            _ => None,
        }
    }

    /// The int2 in the column of this name; None where it isn't one.
    pub fn int2(&self, column: &str) -> Option<i16>
        ensures { IfSome result (λ n.
            value_at self.now.table.now.columns self.now.row.now column.now
            ≡ Some (values.Int2 n)) }
    {
        match self.get(column)? {
            Datum::Int2(n) => Some(n),
            _ => None,
        }
    }

    /// The int4 in the column of this name; None where it isn't one.
    pub fn int4(&self, column: &str) -> Option<i32>
        ensures { IfSome result (λ n.
            value_at self.now.table.now.columns self.now.row.now column.now
            ≡ Some (values.Int4 n)) }
    {
        match self.get(column)? {
            Datum::Int4(n) => Some(n),
            _ => None,
        }
    }

    /// The int8 in the column of this name; None where it isn't one.
    pub fn int8(&self, column: &str) -> Option<i64>
        ensures { IfSome result (λ n.
            value_at self.now.table.now.columns self.now.row.now column.now
            ≡ Some (values.Int8 n)) }
    {
        match self.get(column)? {
            Datum::Int8(n) => Some(n),
            _ => None,
        }
    }

    /// The text in the column of this name, also of a type that takes texts; None where it isn't one.
    pub fn text(&self, column: &str) -> Option<&'a str>
        ensures { IfSome result (λ text.
            value_at self.now.table.now.columns self.now.row.now column.now
            ≡ Some (values.Text text.now)) }
    {
        match self.get(column)? {
            Datum::Text(text) => Some(text),
            _ => None,
        }
    }

    /// The uuid in the column of this name; None where it isn't one.
    pub fn uuid(&self, column: &str) -> Option<u128>
        ensures { IfSome result (λ n.
            value_at self.now.table.now.columns self.now.row.now column.now
            ≡ Some (values.Uuid n)) }
    {
        match self.get(column)? {
            Datum::Uuid(n) => Some(n),
            _ => None,
        }
    }
}

fn value_at<'a>(columns: &[Column], values: &'a [Value], name: &str) -> Option<&'a Value>
    ensures { option_copied result ≡ value_at columns.now values.now name.now }
{
    values.get(place_of(columns, name)?)
}

/// Where the column of this name stands.
fn place_of(columns: &[Column], name: &str) -> Option<usize>
    ensures { result ≡ position (λ c. bytes_eq c.name name.now) columns.now }
{
    columns
        .iter()
        .position(|column| column.name.as_str() == name)
}
