//! A table: its names, its columns, and the rows that it takes.

ghost use Rattle.std.specs.Prelude.{◌≡◌, ◌∷◌, IfOk, filter, length};
ghost use Rattle.std.specs.List.{list_all, zip};
ghost use Rattle.std.specs.Str.{bytes_eq};
ghost use Rattle.tables.specs.Tables.{fits_column, fits_key, fits_table, full_name};

use crate::column::Column;
use crate::identity::Identity;
use crate::kinds::Value;
use crate::rows::row::Row;
use crate::rows::row_ref::RowRef;
use pqformat::{Items, Text};
use std::alloc::{AllocError, Global};

/// The most bytes of a name.
pub const MAX_NAME_LENGTH: usize = 63;

/// The most columns of a table.
pub const MAX_COLUMNS: usize = 64;

/// A table that sessions write. Its columns stand in table order.
#[derive(Debug, Drop)]
pub struct Table {
    pub oid: u32,
    pub schema: Text,
    pub name: Text,
    pub identity: Identity,
    pub columns: Items<Column>,
}

impl Table {
    /// A copy; `AllocError` where memory for it is refused.
    pub fn copy(&self, alloc: Global) -> Result<Self, AllocError>
        ensures { IfOk result (λ t. t ≡ self.now) }
    {
        Ok(Table {
            oid: self.oid,
            schema: self.schema.copy(alloc)?,
            name: self.name.copy(alloc)?,
            identity: self.identity,
            columns: copy_of(alloc, self.columns.as_slice())?,
        })
    }

    /// Whether the row has one value for each column, which takes it.
    pub fn takes(&self, row: &Row) -> bool
        ensures { result ≡ fits_table self.now row.now }
    {
        let columns = self.columns.as_slice();
        let values = row.values();
        if columns.len() != values.len() {
            return false;
        }
        all_take(columns, values)
    }

    /// The same of a row that is read where it lies.
    pub fn takes_ref(&self, row: &RowRef<'_>) -> bool
        ensures { result ≡ fits_table self.now row.now }
    {
        let columns = self.columns.as_slice();
        if columns.len() != row.len() {
            return false;
        }
        all_take_refs(columns, row)
    }

    /// Whether the values may stand in the columns of the primary key, in table order.
    pub fn takes_key(&self, key: &Row) -> bool
        ensures { result ≡ fits_key self.now key.now }
    {
        let columns = self.columns.as_slice();
        let values = key.values();
        let count = columns.iter().filter(|column| column.is_key).count();
        count == values.len() && all_take_keys(columns, values)
    }

    /// Whether the name is the table's schema, a dot and its own name.
    pub fn is_named(&self, name: &str) -> bool
        ensures { result ≡ bytes_eq (full_name self.now) name.now }
    {
        let schema = self.schema.as_str().as_bytes();
        match name.as_bytes().strip_prefix(schema) {
            Some(rest) => is_dotted(rest, self.name.as_str()),
            None => false,
        }
    }
}

fn copy_of(alloc: Global, columns: &[Column]) -> Result<Items<Column>, AllocError>
    ensures { IfOk result (λ cs. cs ≡ columns.now) }
{
    let mut copies = Vec::new(alloc);
    for column in columns {
        copies.push(column.copy(alloc)?)?;
    }
    Ok(Items::new(copies))
}

fn all_take(columns: &[Column], values: &[Value]) -> bool
    ensures { result ≡ list_all (λ p. fits_column p.0 p.1) (zip columns.now values.now) }
{
    let mut pairs = columns.iter().zip(values);
    pairs.all(|(column, value)| column.takes(value))
}

fn all_take_refs(columns: &[Column], row: &RowRef<'_>) -> bool
    requires { length columns.now ≡ length row.now }
    ensures { result ≡ list_all (λ p. fits_column p.0 p.1) (zip columns.now row.now) }
{
    for i in 0..columns.len() {
        match row.get(i) {
            Some(value) if columns[i].takes_ref(value) => {}
            _ => return false,
        }
    }
    true
}

fn all_take_keys(columns: &[Column], values: &[Value]) -> bool
    ensures { result
        ≡ list_all (λ p. fits_column p.0 p.1)
        (zip (filter (λ c. c.is_key) columns.now) values.now) }
{
    let mut pairs = columns.iter().filter(|column| column.is_key).zip(values);
    pairs.all(|(column, value)| column.takes(value))
}

fn is_dotted(bytes: &[u8], name: &str) -> bool
    ensures { result ≡ bytes_eq (46 ∷ name.now) bytes.now }
{
    match bytes {
        [b'.', rest @ ..] => name.as_bytes() == rest,
        _ => false,
    }
}
