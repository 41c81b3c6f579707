//! What publications have of one table: its columns, and its rows.

ghost use Rattle.std.specs.Prelude.{◌≡◌, ◌∷◌, [], IfOk, IfSome, None};
ghost use Rattle.std.specs.List.{AllByRecursion};
ghost use Rattle.publication_config.specs.Published.{is_among};
ghost use Rattle.server.specs.TableAnswers.{IsShortFilter, IsShortList};

use crate::publications::row_filters::filter_text;
use pqformat::{Items, Text};
use publication::Publications;
use publication_config::{Publication, PublishedTable};
use std::alloc::{AllocError, Global};
use tables::MAX_COLUMNS;

/// The column lists that the publications of these names have for the table, each once: the numbers of columns from 1 on, or None for all.
/// A list of more columns than a table has is refused as for want of memory.
pub fn column_lists(
    alloc: Global,
    publications: &Publications,
    oid: u32,
    names: &[Text],
) -> Result<Items<Option<Items<u16>>>, AllocError>
    ensures short { IfOk result (λ lists. AllByRecursion IsShortList lists) }
{
    let mut lists = Vec::new(alloc);
    for publication in publications.publications() {
        if let Some(list) = list_in(alloc, publication, oid, names)? {
            add_other(&mut lists, list)?;
        }
    }
    Ok(Items::new(lists))
}

/// Adds a list, unless it's there.
fn add_other(
    lists: &mut Vec<Option<Items<u16>>>,
    list: Option<Items<u16>>,
) -> Result<(), AllocError>
    requires lists { AllByRecursion IsShortList lists.old.items }
    requires list { IsShortList list }
    ensures { AllByRecursion IsShortList lists.new.items }
{
    if !lists.as_slice().contains(&list) {
        lists.push(list)?;
    }
    Ok(())
}

/// The column list of a publication for the table; None, unless it is one of these names and has the table.
fn list_in(
    alloc: Global,
    publication: &Publication,
    oid: u32,
    names: &[Text],
) -> Result<Option<Option<Items<u16>>>, AllocError>
    ensures short { IfOk result (λ list. IfSome list IsShortList) }
{
    match publication.table(oid) {
        Some(table) if is_named(publication, names) => {
            Ok(Some(list_of(alloc, table.listed.as_slice())?))
        }
        _ => Ok(None),
    }
}

fn list_of(alloc: Global, listed: &[bool]) -> Result<Option<Items<u16>>, AllocError>
    ensures short { IfOk result IsShortList }
{
    if listed.len() > MAX_COLUMNS {
        return Err(AllocError);
    }
    let mut numbers = Vec::new(alloc);
    let mut number: u16 = 0;
    for is_listed in listed {
        number += 1;
        if *is_listed {
            numbers.push(number)?;
        }
    }
    if numbers.len() == listed.len() {
        return Ok(None);
    }
    Ok(Some(Items::new(numbers)))
}

/// The row filters that the publications of these names have for the table, each as a text that `publications_in` reads again; None for
/// one that has none. It is told once.
pub fn row_filters(
    alloc: Global,
    publications: &Publications,
    oid: u32,
    names: &[Text],
) -> Result<Items<Option<Text>>, AllocError>
    ensures short { IfOk result (λ filters. AllByRecursion IsShortFilter filters) }
{
    let mut filters = Vec::new(alloc);
    for publication in publications.publications() {
        if let Some(table) = publication.table(oid) {
            if is_named(publication, names) {
                if table.filter.is_none() {
                    return whole(alloc);
                }
                filters.push(Some(filter_text(alloc, publication.name.as_str())?))?;
            }
        }
    }
    Ok(Items::new(filters))
}

/// All rows: one publication without a filter is enough for that.
fn whole(alloc: Global) -> Result<Items<Option<Text>>, AllocError>
    ensures { IfOk result (λ filters. filters ≡ None ∷ []) }
{
    let mut filters = Vec::new(alloc);
    filters.push(None)?;
    Ok(Items::new(filters))
}

/// Whether one of the names is the publication's.
pub(crate) fn is_named(publication: &Publication, names: &[Text]) -> bool
    ensures { result ≡ is_among names.now publication.now }
{
    let name = publication.name.as_str();
    names.iter().any(|n| name == n.as_str())
}
