//! The tables of a configuration, which is a TOML text. Its form is told in docs/CONFIGURATION.md.

ghost use Rattle.std.specs.Prelude.{◌≡◌, ◌==◌, [], IfOk, None, option_map};
ghost use Rattle.std.specs.List.{list_any};
ghost use Rattle.toml.specs.View.{view, items_view};
ghost use Rattle.catalog.specs.Config.{Names, Reads, ReadsTables, another_table, clash, named_by, next_table, tables_after, tables_in, tables_of};
ghost use Rattle.tables.specs.Tables.{AreCatalogued, IsTable, is_namesake};

use crate::catalog::Catalog;
use crate::config_fault::{CatalogFault, CatalogMember, CatalogMisfit};
use crate::config_table::{UnreadTable, table_in};
use crate::document::read_document;
use pqformat::Items;
use std::alloc::Global;
use tables::Table;
use toml::Value;

/// The most tables of a catalogue.
pub const MAX_TABLES: usize = 256;

impl Catalog {
    /// The tables that the text of a configuration names, in its order. What a table is told by stands in
    /// docs/CONFIGURATION.md. A text that is no TOML is `CatalogFault::NotToml` (N1), tables that are told otherwise are
    /// `BadTables` (N1), with what is wrong first. Or `Memory` (N2).
    pub fn from_toml(alloc: Global, text: &str) -> Result<Self, CatalogFault>
        ensures { Names result (named_by text.now) }
    {
        let document = read_document(alloc, text)?;
        Catalog::of_document(alloc, &document)
    }

    /// The tables that the document of a configuration names. What is told otherwise than docs/CONFIGURATION.md says is
    /// `CatalogFault::BadTables` (N1), with what is wrong first. Or `Memory` (N2).
    pub fn of_document(alloc: Global, document: &Value) -> Result<Self, CatalogFault>
        ensures { ReadsTables result (tables_in (view document.now)) }
    {
        let tables = tables_of(alloc, document.get("table"))?;
        Ok(Catalog::of_tables(tables))
    }
}

fn tables_of(alloc: Global, member: Option<&Value>) -> Result<Items<Table>, CatalogFault>
    ensures value { ReadsTables result (tables_of (option_map (λ v. view v.now) member.entry)) }
    ensures fits { IfOk result AreCatalogued }
{
    let Some(value) = member else {
        return Ok(Items::new(Vec::new(alloc)));
    };
    let Some(values) = value.as_array() else {
        return Err(CatalogFault::BadTables(CatalogMisfit::NoList));
    };
    tables_after(alloc, values.as_slice())
}

fn tables_after(alloc: Global, values: &[Value]) -> Result<Items<Table>, CatalogFault>
    ensures value { ReadsTables result (tables_after [] (items_view values.now)) }
    ensures fits { IfOk result AreCatalogued }
{
    let mut tables = Vec::new(alloc);
    for value in values {
        let table = next_table(alloc, tables.as_slice(), value)?;
        tables.push(table)?;
    }
    Ok(Items::new(tables))
}

/// The table after these, where there is room for one more; a fault is told with its number.
#[tactic(auto, unfolding(crate::specs::Config::next_table))]
fn next_table(alloc: Global, tables: &[Table], value: &Value) -> Result<Table, CatalogFault>
    ensures value { ReadsTables result (next_table tables.now (view value.now)) }
    ensures fits { IfOk result IsTable }
    ensures alone { IfOk result (λ t. clash tables.now t ≡ None) }
{
    if tables.len() >= MAX_TABLES {
        return Err(CatalogFault::BadTables(CatalogMisfit::TooMany));
    }
    match another_table(alloc, tables, value) {
        Ok(table) => Ok(table),
        Err(UnreadTable::Wrong(member)) => {
            let misfit = CatalogMisfit::Table(tables.len() + 1, member);
            Err(CatalogFault::BadTables(misfit))
        }
        Err(UnreadTable::Memory) => Err(CatalogFault::Memory),
    }
}

#[tactic(auto, unfolding(crate::specs::Config::another_table))]
fn another_table(alloc: Global, tables: &[Table], value: &Value) -> Result<Table, UnreadTable>
    ensures value { Reads result (another_table tables.now (view value.now)) }
    ensures fits { IfOk result IsTable }
    ensures alone { IfOk result (λ t. clash tables.now t ≡ None) }
{
    let table = table_in(alloc, value)?;
    match clash(tables, &table) {
        Some(member) => Err(UnreadTable::Wrong(member)),
        None => Ok(table),
    }
}

/// The member by which a table is another one.
fn clash(tables: &[Table], table: &Table) -> Option<CatalogMember>
    ensures { result ≡ clash tables.now table.now }
{
    if has_oid(tables, table.oid) {
        return Some(CatalogMember::Oid);
    }
    if has_namesake(tables, table) {
        return Some(CatalogMember::Name);
    }
    None
}

fn has_oid(tables: &[Table], oid: u32) -> bool
    ensures { result ≡ list_any (λ t. t.oid == oid) tables.now }
{
    tables.iter().any(|other| other.oid == oid)
}

fn has_namesake(tables: &[Table], table: &Table) -> bool
    ensures { result ≡ list_any (λ other. is_namesake other table.now) tables.now }
{
    tables.iter().any(|other| is_namesake(other, table))
}

fn is_namesake(other: &Table, table: &Table) -> bool
    ensures { result ≡ is_namesake other.now table.now }
{
    other.schema == table.schema && other.name == table.name
}
