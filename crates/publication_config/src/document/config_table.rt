//! A table of a publication in a configuration.

ghost use Rattle.std.specs.Prelude.{◌≡◌, ◌≤◌, true, codes, IfOk, length, map, replicate, is_some, option_map, option_copied};
ghost use Rattle.std.specs.List.{list_all, list_any};
ghost use Rattle.std.specs.Str.{bytes_eq};
ghost use Rattle.toml.specs.Data.{as_str, get};
ghost use Rattle.toml.specs.View.{view};
ghost use Rattle.catalog.specs.Config.{and_then, is_column};
ghost use Rattle.publication_config.specs.Config.{Reads, columns_in, count_if, filter_in, has_more, has_published, listed_if, listed_in, published_in, table_in, text_in, wrong_member};
ghost use Rattle.publication_config.specs.declared.document.config_fault.UnreadPublication.TheVariants.{Refused};

use crate::document::config_fault::{
    ConfigRefusal, PublicationMisfit, TableMember, TablePlace, UnreadPublication,
};
use crate::document::judging::judged;
use crate::operations::Operations;
use crate::published_table::PublishedTable;
use catalog::{Catalog, is_more_than, names_in};
use pqformat::{Items, Text};
use rowfilter::{Filter, FilterFault, parse};
use std::alloc::{AllocError, Global};
use tables::{Column, Table};
use toml::Value;

/// The table that a value names, with its filter and its columns, as the next of a publication.
#[tactic(auto, unfolding(crate::specs::Config::published_in))]
pub(crate) fn published_in(
    alloc: Global,
    place: TablePlace,
    operations: Operations,
    catalog: &Catalog,
    before: &[PublishedTable],
    value: &Value,
) -> Result<PublishedTable, UnreadPublication>
    ensures { Reads result (published_in place operations catalog.now before.now (view value.now)) }
{
    let Some(table) = table_in(catalog, before, value) else {
        return Err(wrong_member(place, TableMember::Name));
    };
    let Some(text) = text_in(value.get("where")) else {
        return Err(wrong_member(place, TableMember::Where));
    };
    let listed = columns_in(alloc, place, table, value)?;
    let filter = filter_in(alloc, place, table, text)?;
    let has_list = value.get("columns").is_some();
    let published = PublishedTable {
        oid: table.oid,
        filter,
        listed,
    };
    judged(place, operations, table, has_list, published)
}

/// For each column whether the value lists it, if it has no member that no table of a publication has.
#[tactic(auto, unfolding(crate::specs::Config::columns_in))]
fn columns_in(
    alloc: Global,
    place: TablePlace,
    table: &Table,
    value: &Value,
) -> Result<Items<bool>, UnreadPublication>
    ensures { Reads result (columns_in place table.now (view value.now)) }
{
    let Some(listed) = listed_in(alloc, table, value.get("columns"))? else {
        return Err(wrong_member(place, TableMember::Columns));
    };
    if has_more(value) {
        return Err(wrong_member(place, TableMember::Other));
    }
    Ok(listed)
}

fn wrong_member(place: TablePlace, which: TableMember) -> UnreadPublication
    ensures { result ≡ Refused (wrong_member place which) }
{
    UnreadPublication::Refused(ConfigRefusal::Misfit(PublicationMisfit::Table(place, which)))
}

#[tactic(auto, unfolding(crate::specs::Config::table_in))]
fn table_in<'c>(
    catalog: &'c Catalog,
    published: &[PublishedTable],
    value: &Value,
) -> Option<&'c Table>
    ensures { option_copied result ≡ table_in catalog.now published.now (view value.now) }
{
    let name = value.get("name")?.as_str()?;
    let table = catalog.named(name)?;
    if has_published(published, table.oid) {
        return None;
    }
    Some(table)
}

fn has_published(published: &[PublishedTable], oid: u32) -> bool
    ensures { result ≡ has_published published.now oid }
{
    published.iter().any(|table| table.oid == oid)
}

/// The text of a filter, if the member is there; None where it is no text.
fn text_in(member: Option<&Value>) -> Option<Option<&str>>
    ensures { option_map option_copied result
        ≡ text_in (option_map (λ v. view v.now) member.entry) }
{
    match member {
        None => Some(None),
        Some(value) => match value.as_str() {
            Some(text) => Some(Some(text)),
            None => None,
        },
    }
}

/// For each column of the table whether the member lists it; all columns where there is no member.
#[tactic(auto, unfolding(crate::specs::Config::listed_in))]
fn listed_in(
    alloc: Global,
    table: &Table,
    member: Option<&Value>,
) -> Result<Option<Items<bool>>, AllocError>
    ensures { IfOk result
        (λ listed. listed ≡ listed_in table.now (option_map (λ v. view v.now) member.entry)) }
{
    let columns = table.columns.as_slice();
    match member {
        None => Ok(Some(all_listed(alloc, columns)?)),
        Some(value) => match names_in(alloc, value)? {
            Some(names) => listed_if(alloc, table, names.as_slice()),
            None => Ok(None),
        },
    }
}

fn all_listed(alloc: Global, columns: &[Column]) -> Result<Items<bool>, AllocError>
    ensures { IfOk result (λ listed. listed ≡ replicate (length columns.now) true) }
{
    let mut listed = Vec::new(alloc);
    listed.resize(columns.len(), true)?;
    Ok(Items::new(listed))
}

fn listed_if(
    alloc: Global,
    table: &Table,
    names: &[Text],
) -> Result<Option<Items<bool>>, AllocError>
    ensures { IfOk result (λ listed. listed ≡ listed_if table.now names.now) }
{
    let columns = table.columns.as_slice();
    if !are_columns(columns, names) {
        return Ok(None);
    }
    Ok(Some(listed_by(alloc, columns, names)?))
}

fn are_columns(columns: &[Column], names: &[Text]) -> bool
    ensures { result ≡ list_all (is_column columns.now) names.now }
{
    names.iter().all(|name| is_column(columns, name.as_str()))
}

fn is_column(columns: &[Column], name: &str) -> bool
    ensures { result ≡ is_column columns.now name.now }
{
    columns.iter().any(|column| column.name.as_str() == name)
}

fn listed_by(alloc: Global, columns: &[Column], names: &[Text]) -> Result<Items<bool>, AllocError>
    ensures { IfOk result
        (λ listed. listed ≡ map (λ c. list_any (bytes_eq c.name) names.now) columns.now) }
{
    let mut listed = Vec::with_capacity(alloc, columns.len())?;
    for column in columns {
        listed.push(is_among(names, column.name.as_str()))?;
    }
    Ok(Items::new(listed))
}

fn is_among(names: &[Text], name: &str) -> bool
    ensures { result ≡ list_any (bytes_eq name.now) names.now }
{
    names.iter().any(|other| name == other.as_str())
}

/// Whether the table has a member that no table of a publication has.
fn has_more(value: &Value) -> bool
    ensures { result ≡ has_more (view value.now) }
{
    let filters = count_if(value.get("where").is_some());
    let lists = count_if(value.get("columns").is_some());
    is_more_than(value, 1 + filters + lists)
}

pub(crate) fn count_if(there: bool) -> usize
    ensures value { result ≡ count_if there }
    ensures small { result ≤ 1 }
{
    if there { 1 } else { 0 }
}

fn filter_in(
    alloc: Global,
    place: TablePlace,
    table: &Table,
    text: Option<&str>,
) -> Result<Option<Filter>, UnreadPublication>
    ensures { Reads result (filter_in place table.now (option_copied text.entry)) }
{
    let Some(text) = text else {
        return Ok(None);
    };
    match parse(alloc, text, table) {
        Ok(filter) => Ok(Some(filter)),
        Err(FilterFault::Memory) => Err(UnreadPublication::Memory),
        Err(fault) => Err(UnreadPublication::Refused(ConfigRefusal::BadFilter(place, fault))),
    }
}
