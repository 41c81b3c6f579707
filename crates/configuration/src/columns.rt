//! Which column of a table has a type that there isn't, or that no key may have, for whoever wrote it.

use tables::Kind;
use toml::Value;

/// The types that there are.
pub(crate) const KINDS: &str =
    "bool, int2, int4, int8, numeric, numeric(p,s), text, varchar, varchar(n), char(n), bytea, date, time, timestamp, timestamptz and uuid";

/// A column that is refused for its type.
#[derive(Clone, Copy)]
pub(crate) struct Untyped<'d> {
    pub name: &'d str,
    pub kind: &'d str,
}

/// The first such column of this table; the first table is number 1.
pub(crate) fn untyped_column(document: &Value, table: usize) -> Option<Untyped<'_>> {
    for column in numbered(document, table)?
        .get("columns")?
        .as_array()?
        .iter()
    {
        if let Some(found) = untyped_in(column) {
            return Some(found);
        }
    }
    None
}

/// The first column of this table's key by whose values rows can't be told apart.
pub(crate) fn vague_column(document: &Value, table: usize) -> Option<Untyped<'_>> {
    let table = numbered(document, table)?;
    let key = table.get("key")?.as_array()?;
    for column in table.get("columns")?.as_array()?.iter() {
        let Some(told) = pair_in(column) else {
            return None;
        };
        if is_among(key, told.name) && is_vague(told.kind) {
            return Some(told);
        }
    }
    None
}

fn numbered(document: &Value, table: usize) -> Option<&Value> {
    let tables = document.get("table")?.as_array()?;
    tables.get(table.checked_sub(1)?)
}

fn is_among(key: &[Value], name: &str) -> bool {
    key.iter().any(|value| value.as_str() == Some(name))
}

fn is_vague(kind: &str) -> bool {
    match Kind::named(kind) {
        Some(kind) => !kind.identifies(),
        None => false,
    }
}

/// What is wrong with the type of a column.
fn untyped_in(column: &Value) -> Option<Untyped<'_>> {
    let told = pair_in(column)?;
    match Kind::named(told.kind) {
        Some(_) => None,
        None => Some(told),
    }
}

fn pair_in(column: &Value) -> Option<Untyped<'_>> {
    let pair = column.as_array()?;
    let name = pair.first()?.as_str()?;
    let kind = pair.get(1)?.as_str()?;
    Some(Untyped { name, kind })
}
