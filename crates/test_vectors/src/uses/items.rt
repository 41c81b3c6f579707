//! The table of the uses, its publication and its rows.

use anyhow::Result;
use catalog::Catalog;
use pqformat::Text;
use publication::{Publications, Selection};
use std::alloc::{AllocError, Global};
use tables::{Row, Value};

pub const ITEM: u32 = 16384;

/// One table, and a publication of it.
pub const CONFIGURATION: &str = "\
[[table]]
oid = 16384
schema = 'public'
name = 'item'
key = ['id']
columns = [['id', 'int4'], ['name', 'text'], ['qty', 'int8']]
[[publication]]
name = 'p'
tables = [{ name = 'public.item' }]
";

pub fn configured(alloc: Global) -> Result<Catalog> {
    Ok(Catalog::from_toml(alloc, CONFIGURATION)?)
}

/// What the publication `p` selects.
pub fn selection_of_p(alloc: Global, catalog: &Catalog) -> Result<Selection> {
    let publications = Publications::from_toml(alloc, CONFIGURATION, catalog)?;
    p_of(alloc, &publications)
}

fn p_of(alloc: Global, publications: &Publications) -> Result<Selection> {
    let name = Text::copy_of(alloc, "p")?;
    Ok(publications.select(&[name])?)
}

/// A row of the table public.item.
pub fn item(alloc: Global, id: i32, name: &str, qty: i64) -> Result<Row, AllocError> {
    let name = Value::Text(Text::copy_of(alloc, name)?);
    Ok(Row::new(vec![in alloc; Value::Int4(id), name, Value::Int8(qty)]?))
}
