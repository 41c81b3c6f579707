//! The rows and keys of lines.

ghost use Rattle.std.specs.Prelude.{◌≡◌, ◌++◌, IfOk, drop, length};
ghost use Rattle.schedule.specs.Rows.{row_in, value_in, text_in, integer_in, huge_in, first_kind, key_columns};

use crate::event::Literal;
use pqformat::Text;
use std::alloc::{AllocError, Global};
use tables::{Column, Kind, Row, Value, uuid_of_text};

/// The row of these literals. A literal that doesn't fit its column becomes a value of another kind, so that no table takes
/// the row.
pub(crate) fn row_of(
    alloc: Global,
    columns: &[Column],
    literals: &[Literal],
) -> Result<Row, AllocError>
    ensures { IfOk result (λ row. row ≡ row_in columns.now literals.now) }
{
    let mut values = Vec::with_capacity(alloc, literals.len())?;
    let mut left = columns;
    for literal in literals {
        let (kind, rest) = first_of(left);
        values.push(value_of(alloc, kind, literal)?)?;
        left = rest;
    }
    Ok(Row::new(values))
}

/// The same of a key, whose literals belong to the columns of the primary key, in table order.
pub(crate) fn key_of(
    alloc: Global,
    columns: &[Column],
    literals: &[Literal],
) -> Result<Row, AllocError>
    ensures { IfOk result (λ key. key ≡ row_in (key_columns columns.now) literals.now) }
{
    let mut values = Vec::with_capacity(alloc, literals.len())?;
    let mut left = columns;
    for literal in literals {
        let (kind, rest) = first_key_of(left);
        values.push(value_of(alloc, kind, literal)?)?;
        left = rest;
    }
    Ok(Row::new(values))
}

/// The kind of the first column of the primary key, and the columns after it.
fn first_key_of(columns: &[Column]) -> (Kind, &[Column])
    ensures kind { result.0 ≡ first_kind (key_columns columns.now) }
    ensures rest { key_columns result.1.now ≡ drop 1 (key_columns columns.now) }
{
    let mut left = columns;
    while let [column, rest @ ..] = left {
        if column.is_key {
            return (column.kind, rest);
        }
        left = rest;
    }
    (Kind::Int8, left)
}

/// The kind of the first column, and the columns after it.
fn first_of(columns: &[Column]) -> (Kind, &[Column])
    ensures kind { result.0 ≡ first_kind columns.now }
    ensures rest { result.1.now ≡ drop 1 columns.now }
{
    match columns {
        [] => (Kind::Int8, columns),
        [column, rest @ ..] => (column.kind, rest),
    }
}

fn value_of(alloc: Global, kind: Kind, literal: &Literal) -> Result<Value, AllocError>
    ensures { IfOk result (λ v. v ≡ value_in kind literal.now) }
{
    Ok(match literal {
        Literal::Null => Value::Null,
        Literal::Bool(b) => Value::Bool(*b),
        Literal::Integer(n) => integer_of(kind, *n),
        Literal::Huge => huge_of(kind),
        Literal::Text(text) => return text_of(alloc, kind, text),
    })
}

/// A UUID where the column is of UUIDs and the text spells one.
fn text_of(alloc: Global, kind: Kind, text: &Text) -> Result<Value, AllocError>
    ensures { IfOk result (λ v. v ≡ text_in kind text.now) }
{
    match kind {
        Kind::Uuid => match uuid_of_text(text.as_str().as_bytes()) {
            Some(n) => Ok(Value::Uuid(n)),
            None => Ok(Value::Text(text.copy(alloc)?)),
        },
        Kind::Bool | Kind::Int2 | Kind::Int4 | Kind::Int8 => Ok(Value::Text(text.copy(alloc)?)),
        Kind::Text | Kind::AsText(_) => Ok(Value::Text(text.copy(alloc)?)),
    }
}

/// Of the column's kind where it fits, else of one that the column doesn't take.
fn integer_of(kind: Kind, n: i64) -> Value
    ensures { result ≡ integer_in kind n }
{
    match kind {
        Kind::Int2 => match i16::try_from(n) {
            Ok(small) => Value::Int2(small),
            Err(_) => Value::Int8(n),
        },
        Kind::Int4 => match i32::try_from(n) {
            Ok(small) => Value::Int4(small),
            Err(_) => Value::Int8(n),
        },
        Kind::Bool | Kind::Int8 | Kind::Text | Kind::Uuid | Kind::AsText(_) => Value::Int8(n),
    }
}

/// A value of another kind, so that no table takes it.
fn huge_of(kind: Kind) -> Value
    ensures { result ≡ huge_in kind }
{
    match kind {
        Kind::Bool => Value::Int8(0),
        Kind::Int2 | Kind::Int4 | Kind::Int8 => Value::Bool(false),
        Kind::Text | Kind::Uuid | Kind::AsText(_) => Value::Bool(false),
    }
}
