//! A table in a configuration, with its columns.

ghost use Rattle.std.specs.Prelude.{◌≡◌, ◌<◌, ◌||◌, [], length, codes, not, IfOk, IfSome, option_map};
ghost use Rattle.tables.specs.declared.table.TheConstants.{MAX_COLUMNS};
ghost use Rattle.std.specs.List.{list_all};
ghost use Rattle.toml.specs.Data.{get};
ghost use Rattle.toml.specs.View.{view, items_view};
ghost use Rattle.catalog.specs.declared.config_table.UnreadTable.TheVariants.{Memory};
ghost use Rattle.catalog.specs.Config.{another_column, columns_at, columns_after, columns_in, has_others, identity_in, is_column, is_identifying, name_in, names_in, next_column, oid_in, pair_in, table_in, told_member, Reads};
ghost use Rattle.std.specs.Option.{ok_or};
ghost use Rattle.catalog.specs.declared.config_fault.CatalogMember.TheVariants as members;
ghost use Rattle.tables.specs.Kinds.{identifies};
ghost use Rattle.tables.specs.Tables.{AreColumns, IsName, IsTable};

use crate::config_fault::CatalogMember;
use crate::config_member::{
    identity_in, is_among, is_more_than, kind_in, name_in, names_in, oid_in, unless_empty,
};
use pqformat::{Items, Text};
use std::alloc::{AllocError, Global};
use tables::{Column, Identity, MAX_COLUMNS, Table};
use toml::Value;

/// The members that every table has.
const REQUIRED: usize = 5;

/// Why no table was read.
#[derive(Clone, Copy)]
pub(crate) enum UnreadTable {
    Wrong(CatalogMember),
    Memory,
}

impl From<AllocError> for UnreadTable {
    ghost from_gives = { λ _ e. e ≡ Memory };

    fn from(_e: AllocError) -> UnreadTable {
        UnreadTable::Memory
    }
}

/// The table that a value names, or its first member that is wrong.
#[tactic(auto, unfolding(crate::specs::Config::table_in))]
pub(crate) fn table_in(alloc: Global, value: &Value) -> Result<Table, UnreadTable>
    ensures value { Reads result (table_in (view value.now)) }
    ensures fits { IfOk result IsTable }
{
    let oid = oid_at(value)?;
    let schema = name_at(alloc, value, "schema", CatalogMember::Schema)?;
    let name = name_at(alloc, value, "name", CatalogMember::Name)?;
    let identity = identity_at(value)?;
    let columns = columns_at(alloc, value)?;
    if has_others(value) {
        return Err(UnreadTable::Wrong(CatalogMember::Other));
    }
    Ok(Table {
        oid,
        schema,
        name,
        identity,
        columns,
    })
}

fn oid_at(table: &Value) -> Result<u32, UnreadTable>
    ensures { Reads result (told_member members.Oid (codes "oid") oid_in (view table.now)) }
{
    let oid = table.get("oid").and_then(oid_in);
    oid.ok_or(UnreadTable::Wrong(CatalogMember::Oid))
}

/// The name in this member, which `which` tells where there is none.
fn name_at(
    alloc: Global,
    table: &Value,
    member: &str,
    which: CatalogMember,
) -> Result<Text, UnreadTable>
    ensures value { Reads result (told_member which member.now name_in (view table.now)) }
    ensures named { IfOk result IsName }
{
    match table.get(member).and_then(name_in) {
        Some(name) => Ok(Text::copy_of(alloc, name)?),
        None => Err(UnreadTable::Wrong(which)),
    }
}

fn identity_at(table: &Value) -> Result<Identity, UnreadTable>
    ensures { Reads result
        (ok_or (identity_in (get (codes "identity") (view table.now))) members.Identity) }
{
    identity_in(table.get("identity")).ok_or(UnreadTable::Wrong(CatalogMember::Identity))
}

/// The columns, of which some have the names of the key.
#[tactic(auto, unfolding(crate::specs::Config::columns_at))]
fn columns_at(alloc: Global, table: &Value) -> Result<Items<Column>, UnreadTable>
    ensures value { Reads result (columns_at (view table.now)) }
    ensures fits { IfOk result AreColumns }
{
    let key = key_at(alloc, table)?;
    let columns = columns_beside(alloc, key.as_slice(), table)?;
    if are_columns(columns.as_slice(), key.as_slice()) && is_identifying(columns.as_slice()) {
        Ok(columns)
    } else {
        Err(UnreadTable::Wrong(CatalogMember::Key))
    }
}

fn key_at(alloc: Global, table: &Value) -> Result<Items<Text>, UnreadTable>
    ensures { Reads result (told_member members.Key (codes "key") names_in (view table.now)) }
{
    let Some(value) = table.get("key") else {
        return Err(UnreadTable::Wrong(CatalogMember::Key));
    };
    let names = names_in(alloc, value)?;
    names.ok_or(UnreadTable::Wrong(CatalogMember::Key))
}

/// The columns beside a key of these names.
fn columns_beside(alloc: Global, key: &[Text], table: &Value) -> Result<Items<Column>, UnreadTable>
    ensures value { Reads result
        (told_member members.Columns (codes "columns") (columns_in key.now) (view table.now)) }
    ensures fits { IfOk result AreColumns }
{
    let Some(value) = table.get("columns") else {
        return Err(UnreadTable::Wrong(CatalogMember::Columns));
    };
    let columns = columns_in(alloc, key, value)?;
    columns.ok_or(UnreadTable::Wrong(CatalogMember::Columns))
}

fn are_columns(columns: &[Column], names: &[Text]) -> bool
    ensures { result ≡ list_all (is_column columns.now) names.now }
{
    names.iter().all(|name| is_column(columns, name.as_str()))
}

/// Whether rows can be told apart by the values of the key's columns.
fn is_identifying(columns: &[Column]) -> bool
    ensures { result ≡ is_identifying columns.now }
{
    columns.iter().all(|column| fits_key(column))
}

fn fits_key(column: &Column) -> bool
    ensures { result ≡ (not column.now.is_key || identifies column.now.kind) }
{
    !column.is_key || column.kind.identifies()
}

/// Whether the table has a member that no table has.
fn has_others(table: &Value) -> bool
    ensures { result ≡ has_others (view table.now) }
{
    let known = if table.get("identity").is_some() {
        REQUIRED + 1
    } else {
        REQUIRED
    };
    is_more_than(table, known)
}

#[tactic(auto, unfolding(crate::specs::Config::columns_in))]
fn columns_in(
    alloc: Global,
    key: &[Text],
    value: &Value,
) -> Result<Option<Items<Column>>, AllocError>
    ensures value { IfOk result (λ columns. columns ≡ columns_in key.now (view value.now)) }
    ensures fits { IfOk result (λ columns. IfSome columns AreColumns) }
{
    match value.as_array() {
        Some(values) => Ok(columns_of(alloc, key, values.as_slice())?.and_then(unless_empty)),
        None => Ok(None),
    }
}

fn columns_of(
    alloc: Global,
    key: &[Text],
    values: &[Value],
) -> Result<Option<Items<Column>>, AllocError>
    ensures value { IfOk result
        (λ columns. columns ≡ columns_after key.now [] (items_view values.now)) }
    ensures fits { IfOk result (λ columns. IfSome columns AreColumns) }
{
    let mut columns = Vec::new(alloc);
    for value in values {
        let Some(column) = next_column(alloc, key, columns.as_slice(), value)? else {
            return Ok(None);
        };
        columns.push(column)?;
    }
    Ok(Some(Items::new(columns)))
}

/// The column after these, where there is room for one more.
#[tactic(auto, unfolding(crate::specs::Config::next_column))]
fn next_column(
    alloc: Global,
    key: &[Text],
    columns: &[Column],
    value: &Value,
) -> Result<Option<Column>, AllocError>
    ensures value { IfOk result
        (λ column. column ≡ next_column key.now columns.now (view value.now)) }
    ensures named { IfOk result (λ column. IfSome column (λ c. IsName c.name)) }
    ensures room { IfOk result (λ column. IfSome column (λ _. length columns.now < MAX_COLUMNS)) }
{
    if columns.len() >= MAX_COLUMNS {
        return Ok(None);
    }
    another_column(alloc, key, columns, value)
}

#[tactic(auto, unfolding(crate::specs::Config::another_column))]
fn another_column(
    alloc: Global,
    key: &[Text],
    columns: &[Column],
    value: &Value,
) -> Result<Option<Column>, AllocError>
    ensures value { IfOk result
        (λ column. column ≡ another_column key.now columns.now (view value.now)) }
    ensures named { IfOk result (λ column. IfSome column (λ c. IsName c.name)) }
{
    let Some((name, kind)) = pair_in(value) else {
        return Ok(None);
    };
    let Some(name) = name_in(name) else {
        return Ok(None);
    };
    let Some(kind) = kind_in(kind) else {
        return Ok(None);
    };
    if is_column(columns, name) {
        return Ok(None);
    }
    Ok(Some(Column {
        name: Text::copy_of(alloc, name)?,
        kind,
        is_key: is_among(key, name),
    }))
}

/// The two values of a list of two.
#[tactic(auto, unfolding(crate::specs::Config::pair_in))]
fn pair_in(value: &Value) -> Option<(&Value, &Value)>
    ensures { option_map (λ pair. (view pair.0.now, view pair.1.now)) result
        ≡ pair_in (view value.now) }
{
    let first = value.get(0)?;
    let second = value.get(1)?;
    if value.get(2).is_some() {
        return None;
    }
    Some((first, second))
}

fn is_column(columns: &[Column], name: &str) -> bool
    ensures { result ≡ is_column columns.now name.now }
{
    columns.iter().any(|column| column.name.as_str() == name)
}
