//! What a subscriber asks of one table before it copies that (PostgreSQL 15, 31.7).

ghost use Rattle.std.specs.Prelude.{◌≡◌, ◌&&◌, ◌<◌, ◌^◌, IfOk, map};
ghost use Rattle.std.specs.Option.{option_copied};
ghost use Rattle.std.specs.Str.{bytes_eq};
ghost use Rattle.tables.specs.Tables.{table_of};
ghost use Rattle.server.specs.Answers.{IsShort};
ghost use Rattle.server.specs.TableAnswers.{AreShortAttributes};
ghost use Rattle.server_state.specs.Described.{found_table, table_named, told_attribute, told_identity, told_key};

use crate::publications::published::MOST_NAME_BYTES;
use pgoutput::{Column, Logical};
use pqformat::Items;
use publication::Publications;
use server::{FoundTable, TableAttribute, TableIdentity};
use std::alloc::{AllocError, Global};
use tables::{Identity, MAX_COLUMNS, Table};

/// The table of this schema and name.
pub fn found_table(publications: &Publications, schema: &str, name: &str) -> Option<FoundTable>
    ensures { result ≡ found_table publications.now schema.now name.now }
{
    let table = table_named(publications, schema, name)?;
    Some(FoundTable {
        oid: table.oid,
        identity: told_identity(table.identity),
    })
}

pub(crate) fn table_named<'p>(
    publications: &'p Publications,
    schema: &str,
    name: &str,
) -> Option<&'p Table>
    ensures { option_copied result ≡ table_named publications.now schema.now name.now }
{
    let mut tables = publications.tables().iter();
    tables.find(|t| is_named(t, schema, name))
}

fn is_named(table: &Table, schema: &str, name: &str) -> bool
    ensures { result ≡ (bytes_eq table.now.schema schema.now && bytes_eq table.now.name name.now) }
{
    table.schema.as_str() == schema && table.name.as_str() == name
}

fn told_identity(identity: Identity) -> TableIdentity
    ensures { result ≡ told_identity identity }
{
    match identity {
        Identity::Default => TableIdentity::Default,
        Identity::Nothing => TableIdentity::Nothing,
        Identity::Full => TableIdentity::Full,
    }
}

/// The columns of the table of this OID, in its order; none where there is no such table. What no catalogue has, names or columns for
/// which a row has no room, is refused as for want of memory.
pub fn attributes_of(
    alloc: Global,
    publications: &Publications,
    oid: u32,
) -> Result<Items<TableAttribute>, AllocError>
    ensures short { IfOk result AreShortAttributes }
{
    let Some(table) = table_by(publications, oid) else {
        return Ok(Items::new(Vec::new(alloc)));
    };
    let all = all_columns(alloc, table)?;
    let copied = publications.copied(oid, all.as_slice(), &[])?;
    match copied.relation(oid)? {
        Some(Logical::Relation(relation)) => {
            attributes_in(alloc, table.identity, relation.columns.as_slice())
        }
        _ => Ok(Items::new(Vec::new(alloc))),
    }
}

/// The table of this OID.
fn table_by(publications: &Publications, oid: u32) -> Option<&Table>
    ensures { option_copied result ≡ table_of oid publications.now.tables }
{
    publications.tables().iter().find(|t| t.oid == oid)
}

/// A list of all columns of a table.
fn all_columns(alloc: Global, table: &Table) -> Result<Vec<bool>, AllocError> {
    let mut all = Vec::new(alloc);
    all.resize(table.columns.as_slice().len(), true)?;
    Ok(all)
}

/// The columns of a table's Relation.
fn attributes_in(
    alloc: Global,
    identity: Identity,
    columns: &[Column],
) -> Result<Items<TableAttribute>, AllocError>
    ensures told { IfOk result (λ attributes. attributes ≡ map (told_attribute identity) columns.now) }
    ensures short { IfOk result AreShortAttributes }
{
    if columns.len() > MAX_COLUMNS {
        return Err(AllocError);
    }
    let mut attributes = Vec::new(alloc);
    for column in columns {
        attributes.push(attribute_of(alloc, identity, column)?)?;
    }
    Ok(Items::new(attributes))
}

fn attribute_of(
    alloc: Global,
    identity: Identity,
    column: &Column,
) -> Result<TableAttribute, AllocError>
    ensures told { IfOk result (λ attribute. attribute ≡ told_attribute identity column.now) }
    ensures name { IfOk result (λ attribute. IsShort attribute.name) }
    ensures type_oid { IfOk result (λ attribute. attribute.type_oid < 2 ^ 32) }
{
    if column.name.as_str().len() > MOST_NAME_BYTES {
        return Err(AllocError);
    }
    Ok(TableAttribute {
        name: column.name.copy(alloc)?,
        type_oid: in_range(column.kind),
        is_identity: key_of(identity, column.is_key),
    })
}

/// An OID, with the range of its type, which no clause of a column tells.
fn in_range(oid: u32) -> u32
    ensures value { result ≡ oid }
    ensures range { oid < 2 ^ 32 }
{
    oid
}

/// Whether a column stands in the index of the replica identity, if there is one.
fn key_of(identity: Identity, is_key: bool) -> Option<bool>
    ensures { result ≡ told_key identity is_key }
{
    match identity {
        Identity::Default => Some(is_key),
        Identity::Nothing | Identity::Full => None,
    }
}
