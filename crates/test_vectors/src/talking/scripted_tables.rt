//! What the scripted backend tells of its tables, and their rows.

ghost use Rattle.std.specs.Prelude.{◌≡◌, ◌<◌, ◌^◌, IfOk};
ghost use Rattle.std.specs.List.{AllByRecursion};
ghost use Rattle.server.specs.Answers.{IsShort};
ghost use Rattle.server.specs.RowText.{AreShortNext, AreShortValues, IsShortValue};
ghost use Rattle.server.specs.TableAnswers.{AreShortAttributes, IsShortFilter, IsShortList};

use pqformat::{Items, Text};
use server::{BackendFault, TableAttribute};
use std::alloc::{AllocError, Global};

/// The OID of its first table.
pub(crate) const ITEM: u32 = 16424;

/// No text of its is longer.
const MOST_BYTES: usize = 63;

/// A row of three values.
pub(crate) fn row_of(
    alloc: Global,
    id: Option<&str>,
    name: Option<&str>,
    qty: Option<&str>,
) -> Result<Option<Items<Option<Text>>>, BackendFault>
    ensures { AreShortNext result }
{
    match values_of(alloc, id, name, qty) {
        Ok(values) => Ok(Some(values)),
        Err(_) => Err(BackendFault::Memory),
    }
}

fn values_of(
    alloc: Global,
    id: Option<&str>,
    name: Option<&str>,
    qty: Option<&str>,
) -> Result<Items<Option<Text>>, AllocError>
    ensures { IfOk result AreShortValues }
{
    let mut values = Vec::new(alloc);
    values.push(value_of(alloc, id)?)?;
    values.push(value_of(alloc, name)?)?;
    values.push(value_of(alloc, qty)?)?;
    Ok(Items::new(values))
}

fn value_of(alloc: Global, text: Option<&str>) -> Result<Option<Text>, AllocError>
    ensures { IfOk result IsShortValue }
{
    match text {
        Some(text) => Ok(Some(copied(alloc, text)?)),
        None => Ok(None),
    }
}

fn copied(alloc: Global, text: &str) -> Result<Text, AllocError>
    ensures { IfOk result IsShort }
{
    if text.len() > MOST_BYTES {
        return Err(AllocError);
    }
    Text::copy_of(alloc, text)
}

pub(crate) fn attributes_of(alloc: Global, oid: u32) -> Result<Items<TableAttribute>, AllocError>
    ensures { IfOk result AreShortAttributes }
{
    let mut attributes = Vec::new(alloc);
    attributes.push(attribute_of(alloc, oid, "id", 23)?)?;
    attributes.push(attribute_of(alloc, oid, "name", 25)?)?;
    attributes.push(attribute_of(alloc, oid, "qty", 20)?)?;
    Ok(Items::new(attributes))
}

fn attribute_of(
    alloc: Global,
    oid: u32,
    name: &str,
    type_oid: u32,
) -> Result<TableAttribute, AllocError>
    ensures name { IfOk result (λ attribute. IsShort attribute.name) }
    ensures type_oid { IfOk result (λ attribute. attribute.type_oid < 2 ^ 32) }
{
    Ok(TableAttribute {
        name: copied(alloc, name)?,
        type_oid,
        is_identity: match oid {
            ITEM => Some(name == "id"),
            _ => None,
        },
    })
}

/// `listed` publishes two columns, the others all.
pub(crate) fn lists_of(
    alloc: Global,
    names: &[Text],
) -> Result<Items<Option<Items<u16>>>, AllocError>
    ensures { IfOk result (λ lists. AllByRecursion IsShortList lists) }
{
    let mut lists = Vec::new(alloc);
    for name in names {
        lists.push(list_of(alloc, name)?)?;
    }
    Ok(Items::new(lists))
}

fn list_of(alloc: Global, name: &Text) -> Result<Option<Items<u16>>, AllocError>
    ensures { IfOk result IsShortList }
{
    if name.as_str() != "listed" {
        return Ok(None);
    }
    let mut numbers = Vec::new(alloc);
    numbers.push(1)?;
    numbers.push(3)?;
    Ok(Some(Items::new(numbers)))
}

/// `filtered` publishes some rows, the others all.
pub(crate) fn filters_of(alloc: Global, names: &[Text]) -> Result<Items<Option<Text>>, AllocError>
    ensures { IfOk result (λ filters. AllByRecursion IsShortFilter filters) }
{
    let mut filters = Vec::new(alloc);
    for name in names {
        filters.push(filter_of(alloc, name)?)?;
    }
    Ok(Items::new(filters))
}

fn filter_of(alloc: Global, name: &Text) -> Result<Option<Text>, AllocError>
    ensures { IfOk result IsShortFilter }
{
    match name.as_str() {
        "filtered" => Ok(Some(copied(alloc, "(id > 1)")?)),
        _ => Ok(None),
    }
}
