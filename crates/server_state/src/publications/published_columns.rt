//! Which columns of which tables are published, as subscribers of PostgreSQL 15 ask.

ghost use Rattle.std.specs.Prelude.{◌≡◌, ◌≤◌, length, map, IfOk, IfSome};
ghost use Rattle.std.specs.List.{AllByRecursion};
ghost use Rattle.server.specs.Answers.{AreShortColumns};
ghost use Rattle.server_state.specs.Published.{columns_in, columns_told, told_columns};

use crate::publications::published::{MOST_NAME_BYTES, selection_of};
use pgoutput::{Column, Logical};
use pqformat::{Items, Text};
use publication::{Publications, Selection};
use server::{BackendFault, TableColumns, TableName};
use std::alloc::{AllocError, Global};
use tables::MAX_COLUMNS;

/// The tables of the publications of these names, each once, with their columns that are published. `ListConflict`
/// (P2) where two of those have different column lists for one of them, or `Memory`.
pub fn columns_of(
    alloc: Global,
    publications: &Publications,
    names: &[Text],
) -> Result<Items<TableColumns>, BackendFault>
    ensures told { IfOk result (λ tables. tables ≡ columns_told publications.now names.now) }
    ensures short { IfOk result (λ tables. AllByRecursion AreShortColumns tables) }
{
    let selection = selection_of(alloc, publications, names)?;
    match columns_in(alloc, &selection) {
        Ok(tables) => Ok(tables),
        Err(_) => Err(BackendFault::Memory),
    }
}

/// The tables of a selection.
fn columns_in(alloc: Global, selection: &Selection) -> Result<Items<TableColumns>, AllocError>
    ensures told { IfOk result (λ tables. tables ≡ columns_in selection.now) }
    ensures short { IfOk result (λ tables. AllByRecursion AreShortColumns tables) }
{
    let mut tables = Vec::new(alloc);
    for oid in selection.oids() {
        if let Some(table) = columns_by(alloc, selection, *oid)? {
            tables.push(table)?;
        }
    }
    Ok(Items::new(tables))
}

/// The table of this OID, as its Relation has it. What no catalogue has, names or columns for which a row has no room, is refused as for
/// want of memory.
fn columns_by(
    alloc: Global,
    selection: &Selection,
    oid: u32,
) -> Result<Option<TableColumns>, AllocError>
    ensures told { IfOk result (λ table. table ≡ told_columns selection.now oid) }
    ensures short { IfOk result (λ table. IfSome table AreShortColumns) }
{
    let Some(Logical::Relation(relation)) = selection.relation(oid)? else {
        return Ok(None);
    };
    let columns = names_of(alloc, relation.columns.as_slice())?;
    let (schema, name) = (relation.namespace, relation.name);
    if schema.as_str().len() > MOST_NAME_BYTES || name.as_str().len() > MOST_NAME_BYTES {
        return Err(AllocError);
    }
    let table = TableName { schema, name };
    Ok(Some(TableColumns { table, columns }))
}

/// The names of columns.
fn names_of(alloc: Global, columns: &[Column]) -> Result<Items<Text>, AllocError>
    ensures told { IfOk result (λ names. names ≡ map (λ c. c.name) columns.now) }
    ensures few { IfOk result (λ names. length names ≤ 64) }
    ensures short { IfOk result (λ names. AllByRecursion (λ name. length name ≤ 63) names) }
{
    if columns.len() > MAX_COLUMNS {
        return Err(AllocError);
    }
    let mut names = Vec::new(alloc);
    for column in columns {
        if column.name.as_str().len() > MOST_NAME_BYTES {
            return Err(AllocError);
        }
        names.push(column.name.copy(alloc)?)?;
    }
    Ok(Items::new(names))
}
