//! Changes of the log as `--inspect` tells them.

use std::fmt;
use tables::{Change, Message, Row, Value};

/// A change, with the OIDs of its tables.
#[derive(Clone, Copy)]
pub(crate) struct ToldChange<'a> {
    pub change: &'a Change,
}

impl<'a> fmt::Display for ToldChange<'a> {
    fn fmt<W: fmt::Write>(&self, f: &mut fmt::Formatter<W>) -> fmt::Result {
        match self.change {
            Change::Insert(table, row) => write!(f, "insert {table} {}", ToldRow { row }),
            Change::Update(table, old, new) => {
                write!(
                    f,
                    "update {table} {} {}",
                    ToldRow { row: old },
                    ToldRow { row: new }
                )
            }
            Change::Delete(table, old) => write!(f, "delete {table} {}", ToldRow { row: old }),
            Change::Truncate(tables) => write!(f, "truncate {:?}", tables.as_slice()),
            Change::Message(message) => write!(f, "message {}", ToldMessage { message }),
        }
    }
}

/// The prefix of a message, and its content byte by byte.
#[derive(Clone, Copy)]
pub(crate) struct ToldMessage<'a> {
    pub message: &'a Message,
}

impl<'a> fmt::Display for ToldMessage<'a> {
    fn fmt<W: fmt::Write>(&self, f: &mut fmt::Formatter<W>) -> fmt::Result {
        write!(f, "{:?} ", self.message.prefix.as_str())?;
        for byte in self.message.content.as_slice() {
            write!(f, "{byte:02x}")?;
        }
        Ok(())
    }
}

/// The values of a row, in parentheses.
#[derive(Clone, Copy)]
struct ToldRow<'a> {
    row: &'a Row,
}

impl<'a> fmt::Display for ToldRow<'a> {
    fn fmt<W: fmt::Write>(&self, f: &mut fmt::Formatter<W>) -> fmt::Result {
        let mut before = "(";
        for value in self.row.values() {
            f.write_str(before)?;
            tell_value(value, f)?;
            before = ",";
        }
        f.write_str(")")
    }
}

fn tell_value<W: fmt::Write>(value: &Value, f: &mut fmt::Formatter<W>) -> fmt::Result {
    match value {
        Value::Null => f.write_str("null"),
        Value::Bool(value) => write!(f, "{value}"),
        Value::Int2(value) => write!(f, "{value}"),
        Value::Int4(value) => write!(f, "{value}"),
        Value::Int8(value) => write!(f, "{value}"),
        Value::Text(value) => write!(f, "{:?}", value.as_str()),
        Value::Uuid(value) => write!(f, "{value:032x}"),
    }
}
