//! Whose log a file is.

ghost use Rattle.std.specs.Prelude.{◌≡◌, ◌≢◌, MatchOption};

use catalog::Catalog;
use pqformat::Text;
use std::alloc::{AllocError, Global};
use tables::{Column, Table};

/// The text by which a log's file is known: the system's name, and its tables with their columns, a line each. Tables are told by the
/// numbers that changes name them by.
pub(crate) fn identity_of(
    alloc: Global,
    systemid: &str,
    catalog: &Catalog,
) -> Result<Text, AllocError> {
    let mut lines = format!(in alloc; "system {systemid}\n")?;
    for table in catalog.tables() {
        add_table(alloc, &mut lines, table)?;
    }
    Ok(Text::new(lines))
}

fn add_table(alloc: Global, lines: &mut String, table: &Table) -> Result<(), AllocError> {
    let (oid, schema, name) = (table.oid, table.schema.as_str(), table.name.as_str());
    let line = format!(in alloc; "table {oid} {schema}.{name}\n")?;
    lines.push_str(line.as_str())?;
    for column in table.columns.as_slice() {
        add_column(alloc, lines, name, column)?;
    }
    Ok(())
}

fn add_column(
    alloc: Global,
    lines: &mut String,
    table: &str,
    column: &Column,
) -> Result<(), AllocError> {
    let (name, kind) = (column.name.as_str(), column.kind);
    let key = if column.is_key { " key" } else { "" };
    let line = format!(in alloc; "column {table}.{name} {kind:?}{key}\n")?;
    lines.push_str(line.as_str())
}

/// In which line two of them differ.
#[derive(Clone, Copy)]
pub struct OtherLog<'a> {
    pub ours: &'a str,
    pub theirs: &'a str,
}

/// The first line in which they differ; the last one where one of them goes on behind the other. None: they are the same.
pub fn judge_identity<'a>(ours: &'a str, theirs: &'a str) -> Option<OtherLog<'a>>
    ensures { MatchOption result (ours.now ≡ theirs.now) (λ _. ours.now ≢ theirs.now) }
{
    if ours == theirs {
        return None;
    }
    Some(first_difference(ours, theirs))
}

fn first_difference<'a>(ours: &'a str, theirs: &'a str) -> OtherLog<'a> {
    let mut others = theirs.lines();
    for line in ours.lines() {
        let other = others.next().unwrap_or("");
        if line != other {
            return OtherLog {
                ours: line,
                theirs: other,
            };
        }
    }
    OtherLog {
        ours: "",
        theirs: others.next().unwrap_or(""),
    }
}
