//! A publication in a configuration.

ghost use Rattle.std.specs.Prelude.{◌≡◌, [], codes, false, filter, IfOk, option_copied, option_map};
ghost use Rattle.std.specs.List.{list_all, list_any};
ghost use Rattle.std.specs.Str.{bytes_eq};
ghost use Rattle.toml.specs.Data.{get};
ghost use Rattle.toml.specs.View.{view, items_view};
ghost use Rattle.publication_config.specs.Config.{Reads, ReadsReach, all_in, has_others, has_whole, is_schema, judged_table, list_in, name_of, no_operations, operation_in, operation_of, operations_after, operations_in, publication_in, published_behind, published_by, reach_in, schemas_in, seen_reach, tables_in, whole_after, wrong};
ghost use Rattle.publication_config.specs.Published.{published_whole, with_operation};
ghost use Rattle.publication_config.specs.declared.document.config_fault.UnreadPublication.TheVariants.{Refused};

use crate::document::config_fault::{
    ConfigRefusal, PublicationMember, PublicationMisfit, TablePlace, UnreadPublication,
};
use crate::document::config_table::{count_if, published_in};
use crate::document::judging::judged;
use crate::operations::{Operation, Operations};
use crate::publication::Publication;
use crate::published_table::PublishedTable;
use catalog::{Catalog, is_more_than, name_in, names_in};
use pqformat::{Items, Text};
use std::alloc::{AllocError, Global};
use tables::Table;
use toml::Value;

/// The members that every publication has: its name, and one that tells its tables.
const REQUIRED: usize = 2;

/// Of which tables a publication is.
#[derive(Drop)]
pub(crate) enum Reach<'v> {
    /// Those of a list.
    Listed(&'v [Value]),
    /// All tables of these schemas.
    OfSchemas(Items<Text>),
    All,
}

/// The publication that a value names, as the one of this number.
#[tactic(auto, unfolding(crate::specs::Config::publication_in))]
pub(crate) fn publication_in(
    alloc: Global,
    number: usize,
    catalog: &Catalog,
    before: &[Publication],
    value: &Value,
) -> Result<Publication, UnreadPublication>
    ensures { Reads result (publication_in number catalog.now before.now (view value.now)) }
{
    let Some(name) = name_of(before, value) else {
        return Err(wrong(number, PublicationMember::Name));
    };
    let Some(operations) = operations_in(value.get("publish")) else {
        return Err(wrong(number, PublicationMember::Publish));
    };
    let tables = tables_in(alloc, number, operations, catalog, value)?;
    Ok(Publication {
        name: Text::copy_of(alloc, name)?,
        operations,
        tables,
    })
}

/// The tables of the value, with what of each is published, if it has no member that no publication has.
#[tactic(auto, unfolding(crate::specs::Config::tables_in))]
fn tables_in(
    alloc: Global,
    number: usize,
    operations: Operations,
    catalog: &Catalog,
    value: &Value,
) -> Result<Items<PublishedTable>, UnreadPublication>
    ensures { Reads result (tables_in number operations catalog.now (view value.now)) }
{
    let reach = reach_in(alloc, number, catalog.tables(), value)?;
    if has_others(value) {
        return Err(wrong(number, PublicationMember::Other));
    }
    published_by(alloc, number, operations, catalog, &reach)
}

fn wrong(number: usize, which: PublicationMember) -> UnreadPublication
    ensures { result ≡ Refused (wrong number which) }
{
    UnreadPublication::Refused(ConfigRefusal::Misfit(PublicationMisfit::Publication(number, which)))
}

/// The name of the value, if it is one that no publication has yet.
#[tactic(auto, unfolding(crate::specs::Config::name_of))]
fn name_of<'v>(publications: &[Publication], value: &'v Value) -> Option<&'v str>
    ensures { option_copied result ≡ name_of publications.now (view value.now) }
{
    let name = name_in(value.get("name")?)?;
    if is_taken(publications, name) {
        return None;
    }
    Some(name)
}

fn is_taken(publications: &[Publication], name: &str) -> bool
    ensures { result ≡ list_any (λ p. bytes_eq p.name name.now) publications.now }
{
    publications.iter().any(|p| p.name.as_str() == name)
}

/// What is published of what is done to a table; all where there is no member.
#[tactic(auto, unfolding(crate::specs::Config::operations_in))]
fn operations_in(member: Option<&Value>) -> Option<Operations>
    ensures { result ≡ operations_in (option_map (λ v. view v.now) member.entry) }
{
    match member {
        None => Some(Operations::ALL),
        Some(value) => operations_of(value.as_array()?.as_slice()),
    }
}

fn operations_of(values: &[Value]) -> Option<Operations>
    ensures { result ≡ operations_after no_operations (items_view values.now) }
{
    let mut operations = Operations::NONE;
    for value in values {
        let Some(operation) = operation_in(value) else {
            return None;
        };
        operations = operations.with(operation);
    }
    Some(operations)
}

#[tactic(auto, unfolding(crate::specs::Config::operation_in))]
fn operation_in(value: &Value) -> Option<Operation>
    ensures { result ≡ operation_in (view value.now) }
{
    operation_of(value.as_str()?)
}

fn operation_of(word: &str) -> Option<Operation>
    ensures { result ≡ operation_of word.now }
{
    match word {
        "insert" => Some(Operation::Insert),
        "update" => Some(Operation::Update),
        "delete" => Some(Operation::Delete),
        "truncate" => Some(Operation::Truncate),
        _ => None,
    }
}

/// Whether the publication has a member that no publication has.
fn has_others(value: &Value) -> bool
    ensures { result ≡ has_others (view value.now) }
{
    let publish = count_if(value.get("publish").is_some());
    is_more_than(value, REQUIRED + publish)
}

/// What the value tells its tables by: exactly one member of three.
#[tactic(auto, unfolding(crate::specs::Config::reach_in))]
fn reach_in<'v>(
    alloc: Global,
    number: usize,
    tables: &[Table],
    value: &'v Value,
) -> Result<Reach<'v>, UnreadPublication>
    ensures { ReadsReach result (reach_in number tables.now (view value.now)) }
{
    match (
        value.get("tables"),
        value.get("schemas"),
        value.get("all_tables"),
    ) {
        (Some(list), None, None) => list_in(list).ok_or(wrong(number, PublicationMember::Tables)),
        (None, Some(names), None) => {
            schemas_in(alloc, tables, names)?.ok_or(wrong(number, PublicationMember::Schemas))
        }
        (None, None, Some(flag)) => all_in(flag).ok_or(wrong(number, PublicationMember::AllTables)),
        _ => Err(wrong(number, PublicationMember::OneOfThree)),
    }
}

#[tactic(auto, unfolding(crate::specs::Config::list_in))]
fn list_in(value: &Value) -> Option<Reach<'_>>
    ensures { option_map seen_reach result ≡ list_in (view value.now) }
{
    let values = value.as_array()?.as_slice();
    match values.split_first() {
        Some(_) => Some(Reach::Listed(values)),
        None => None,
    }
}

#[tactic(auto, unfolding(crate::specs::Config::schemas_in))]
fn schemas_in<'v>(
    alloc: Global,
    tables: &[Table],
    value: &'v Value,
) -> Result<Option<Reach<'v>>, AllocError>
    ensures { IfOk result
        (λ reach. option_map seen_reach reach ≡ schemas_in tables.now (view value.now)) }
{
    match names_in(alloc, value)? {
        Some(names) if are_schemas(tables, names.as_slice()) => Ok(Some(Reach::OfSchemas(names))),
        _ => Ok(None),
    }
}

fn are_schemas(tables: &[Table], names: &[Text]) -> bool
    ensures { result ≡ list_all (is_schema tables.now) names.now }
{
    names.iter().all(|name| is_schema(tables, name.as_str()))
}

fn is_schema(tables: &[Table], name: &str) -> bool
    ensures { result ≡ is_schema tables.now name.now }
{
    tables.iter().any(|table| table.schema.as_str() == name)
}

#[tactic(auto, unfolding(crate::specs::Config::all_in))]
fn all_in(value: &Value) -> Option<Reach<'_>>
    ensures { option_map seen_reach result ≡ all_in (view value.now) }
{
    if value.as_bool()? {
        return Some(Reach::All);
    }
    None
}

/// The tables of a publication, with what of each is published.
fn published_by(
    alloc: Global,
    number: usize,
    operations: Operations,
    catalog: &Catalog,
    reach: &Reach<'_>,
) -> Result<Items<PublishedTable>, UnreadPublication>
    ensures { Reads result (published_by number operations catalog.now (seen_reach reach.now)) }
{
    match reach {
        Reach::Listed(values) => published_behind(alloc, number, operations, catalog, values),
        Reach::OfSchemas(_) | Reach::All => {
            whole_after(alloc, number, operations, catalog.tables(), reach)
        }
    }
}

fn published_behind(
    alloc: Global,
    number: usize,
    operations: Operations,
    catalog: &Catalog,
    values: &[Value],
) -> Result<Items<PublishedTable>, UnreadPublication>
    ensures { Reads result
        (published_behind number operations catalog.now [] (items_view values.now)) }
{
    let mut published = Vec::new(alloc);
    for value in values {
        let place = TablePlace {
            publication: number,
            table: published.len() + 1,
        };
        let table = published_in(
            alloc,
            place,
            operations,
            catalog,
            published.as_slice(),
            value,
        )?;
        published.push(table)?;
    }
    Ok(Items::new(published))
}

/// Whole tables, in their order.
fn whole_after(
    alloc: Global,
    number: usize,
    operations: Operations,
    tables: &[Table],
    reach: &Reach<'_>,
) -> Result<Items<PublishedTable>, UnreadPublication>
    ensures { Reads result
        (whole_after number operations [] (filter (has_whole (seen_reach reach.now)) tables.now)) }
{
    let mut published = Vec::new(alloc);
    for table in tables {
        if has_whole(reach, table) {
            let place = TablePlace {
                publication: number,
                table: published.len() + 1,
            };
            published.push(whole_in(alloc, place, operations, table)?)?;
        }
    }
    Ok(Items::new(published))
}

/// The table as a whole, if what is published of it goes with its identity.
fn whole_in(
    alloc: Global,
    place: TablePlace,
    operations: Operations,
    table: &Table,
) -> Result<PublishedTable, UnreadPublication>
    ensures { Reads result
        (judged_table place operations table.now false (published_whole table.now)) }
{
    let whole = PublishedTable::whole(alloc, table)?;
    judged(place, operations, table, false, whole)
}

fn has_whole(reach: &Reach<'_>, table: &Table) -> bool
    ensures { result ≡ has_whole (seen_reach reach.now) table.now }
{
    match reach {
        Reach::Listed(_) => false,
        Reach::OfSchemas(schemas) => is_among(schemas.as_slice(), table.schema.as_str()),
        Reach::All => true,
    }
}

fn is_among(names: &[Text], name: &str) -> bool
    ensures { result ≡ list_any (bytes_eq name.now) names.now }
{
    names.iter().any(|other| name == other.as_str())
}
