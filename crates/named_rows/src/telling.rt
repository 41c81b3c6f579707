//! Rows and keys of what is told of their columns.

ghost use Rattle.std.specs.Prelude.{◌≡◌, ◌<◌, ◌≤◌, Bool, IfErr, IfOk, IfSome, IfNone, true, false, filter, find, length, slice_get, take};
ghost use Rattle.std.specs.List.{AllByRecursion, list_any};
ghost use Rattle.std.specs.Option.{option_copied};
ghost use Rattle.std.specs.Str.{bytes_eq};
ghost use Rattle.tables.specs.Tables.{fits_column};
ghost use Rattle.named_rows.specs.declared.fault.FieldFault.TheVariants.{Memory};
ghost use Rattle.named_rows.specs.Fields.{IsFieldFault, column_named, columns_of, key_columns, row_told, told_of, value_told};

use crate::datum::{Datum, NamedDatum};
use crate::fault::FieldFault;
use std::alloc::Global;
use tables::{Column, Kind, Row, Table, Value, ValueRef};

/// The row that holds these fields, and null in each other column.
pub fn row_of(alloc: Global, table: &Table, fields: &[NamedDatum<'_>]) -> Result<Row, FieldFault>
    ensures row { IfOk result (λ row. row ≡ row_told table.now.columns fields.now) }
    ensures fault { IfErr result (IsFieldFault table.now.columns fields.now) }
{
    judge(table.columns.as_slice(), fields, Told::Row)?;
    let mut values = Vec::new(alloc);
    for column in table.columns.as_slice() {
        values.push(value_of(alloc, column, fields)?)?;
    }
    Ok(Row::new(values))
}

/// The key that holds these fields, of columns of the key alone.
pub fn key_of(alloc: Global, table: &Table, fields: &[NamedDatum<'_>]) -> Result<Row, FieldFault>
    ensures row { IfOk result (λ key. key ≡ row_told (key_columns table.now.columns) fields.now) }
    ensures fault { IfErr result (IsFieldFault (key_columns table.now.columns) fields.now) }
{
    judge(table.columns.as_slice(), fields, Told::Key)?;
    let mut values = Vec::new(alloc);
    for column in table.columns.as_slice() {
        if column.is_key {
            values.push(value_of(alloc, column, fields)?)?;
        }
    }
    Ok(Row::new(values))
}

/// What is told of a column.
fn value_of(alloc: Global, column: &Column, fields: &[NamedDatum<'_>]) -> Result<Value, FieldFault>
    ensures value { IfOk result (λ value. value ≡ told_of column.now.name fields.now) }
    ensures memory { IfErr result (λ fault. fault ≡ Memory) }
{
    Ok(datum_of(column.name.as_str(), fields).to_value(alloc)?)
}

/// What is told of the column of this name.
fn datum_of<'a>(name: &str, fields: &[NamedDatum<'a>]) -> Datum<'a>
    ensures { value_told result ≡ told_of name.now fields.now }
{
    match field_of(fields, name) {
        Some(field) => field.datum,
        None => Datum::Null,
    }
}

/// The first field of the column of this name.
fn field_of<'a, 'b>(fields: &'b [NamedDatum<'a>], name: &str) -> Option<&'b NamedDatum<'a>>
    ensures { option_copied result ≡ find (λ field. bytes_eq field.column.now name.now) fields.now }
{
    fields.iter().find(|field| field.column == name)
}

/// Which columns may be told.
#[derive(Clone, Copy)]
enum Told {
    Row,
    Key,
}

/// The first fault of the fields: each is of a column, of its kind, and of a column of its own.
fn judge(columns: &[Column], fields: &[NamedDatum<'_>], told: Told) -> Result<(), FieldFault>
    ensures { IfErr result (IsFieldFault (columns_of told columns.now) fields.now) }
{
    for place in 0..fields.len() {
        let field = &fields[place];
        let Some(column) = column_of(columns, field.column, told) else {
            return Err(FieldFault::UnknownColumn(place));
        };
        if !takes(column, field.datum) {
            return Err(FieldFault::WrongKind(place));
        }
        if tells(&fields[..place], field.column) {
            return Err(FieldFault::Repeated(place));
        }
    }
    Ok(())
}

/// The column of this name, where it may be told.
fn column_of<'a>(columns: &'a [Column], name: &str, told: Told) -> Option<&'a Column>
    ensures { option_copied result ≡ column_named name.now (columns_of told columns.now) }
{
    match told {
        Told::Row => column_named(columns, name),
        Told::Key => key_column_named(columns, name),
    }
}

/// The column of the key of this name.
fn key_column_named<'a>(columns: &'a [Column], name: &str) -> Option<&'a Column>
    ensures { option_copied result ≡ column_named name.now (key_columns columns.now) }
{
    let mut key = columns.iter().filter(|column| column.is_key);
    key.find(|column| column.name.as_str() == name)
}

/// The column of this name.
fn column_named<'a>(columns: &'a [Column], name: &str) -> Option<&'a Column>
    ensures { option_copied result ≡ column_named name.now columns.now }
{
    columns.iter().find(|column| column.name.as_str() == name)
}

/// Whether one of the fields is of the column of this name.
fn tells(fields: &[NamedDatum<'_>], name: &str) -> bool
    ensures { result ≡ list_any (λ field. bytes_eq field.column.now name.now) fields.now }
{
    fields.iter().any(|field| field.column == name)
}

/// Whether it may stand in the column.
fn takes(column: &Column, datum: Datum<'_>) -> bool
    ensures { result ≡ fits_column column.now (value_told datum.entry) }
{
    match datum {
        Datum::Null => !column.is_key,
        Datum::Bool(b) => column.kind.holds(ValueRef::Bool(b)),
        Datum::Int2(n) => column.kind.holds(ValueRef::Int2(n)),
        Datum::Int4(n) => column.kind.holds(ValueRef::Int4(n)),
        Datum::Int8(n) => column.kind.holds(ValueRef::Int8(n)),
        Datum::Text(text) => column.kind.holds(ValueRef::Text(text.as_bytes())),
        Datum::Uuid(_) => matches!(column.kind, Kind::Uuid),
    }
}
