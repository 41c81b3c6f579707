//! What the server says of a table that is to be copied: the table, and its columns.

ghost use Rattle.std.specs.Prelude.{◌≡◌, ◌≤◌, ◌<◌, ◌^◌, ◌+◌, length, IfOk};
ghost use Rattle.std.specs.Fmt.{decimal};
ghost use Rattle.frames.specs.declared.backend.data_row.DataValue.TheVariants.{Bytes};
ghost use Rattle.pqformat.specs.Putting.{Puts};
ghost use Rattle.server.specs.Answers.{IsShort};
ghost use Rattle.server.specs.TableAnswers.{AreShortAttributes, attribute_columns, attribute_row, attribute_rows, attributes_told, found_columns, found_row, identity_letter, table_told, truth_value};

use crate::backend_fault::BackendFault;
use crate::found_table::{FoundTable, TableAttribute, TableIdentity};
use crate::refusal::Refusal;
use crate::said::column_types::{bool_column, char_column, int2_column, name_column, oid_column};
use crate::said::say::{say_columns, say_refused_ready, say_values, value};
use crate::said::say_answers::say_selected;
use bytes::BytesMut;
use frames::DataValue;
use pqformat::Items;
use std::alloc::{AllocError, Global};

#[tactic(auto, using(pqformat::proofs::Putting::in_place), unfolding(crate::specs::TableAnswers::found_columns))]
fn say_found_columns(alloc: Global, out: &mut BytesMut) -> Result<(), AllocError>
    ensures { Puts result out.old.items out.new.items found_columns }
{
    let oid = oid_column(alloc, "oid")?;
    let identity = char_column(alloc, "relreplident")?;
    let kind = char_column(alloc, "relkind")?;
    let columns = Vec::from_array(alloc, [oid, identity, kind])?;
    say_columns(out, Items::new(columns))
}

/// The value of a number.
pub(crate) fn number_value(alloc: Global, number: u32) -> Result<DataValue, AllocError>
    ensures value { IfOk result (λ v. v ≡ Bytes (decimal number)) }
    ensures small { IfOk result (λ _. length (decimal number) ≤ 10) }
{
    let text = format!(in alloc; "{number}")?;
    value(alloc, text.as_str())
}

fn identity_letter(identity: TableIdentity) -> &'static str
    ensures { result.now ≡ identity_letter identity }
{
    match identity {
        TableIdentity::Default => "d",
        TableIdentity::Nothing => "n",
        TableIdentity::Full => "f",
    }
}

#[tactic(auto, using(pqformat::proofs::Putting::in_place), unfolding(crate::specs::TableAnswers::found_row))]
fn say_found_row(alloc: Global, out: &mut BytesMut, table: FoundTable) -> Result<(), AllocError>
    ensures { Puts result out.old.items out.new.items (found_row table) }
{
    let oid = number_value(alloc, table.oid)?;
    let identity = value(alloc, identity_letter(table.identity))?;
    let kind = value(alloc, "r")?;
    let values = Vec::from_array(alloc, [oid, identity, kind])?;
    say_values(out, Items::new(values))
}

/// The table that was found, if it was. `AllocError` where memory is refused; some of it may have been added then.
#[tactic(auto, using(pqformat::proofs::Putting::in_place), unfolding(crate::specs::TableAnswers::table_told))]
pub fn say_found_table(
    alloc: Global,
    out: &mut BytesMut,
    answer: Result<Option<FoundTable>, BackendFault>,
) -> Result<(), AllocError>
    ensures { Puts result out.old.items out.new.items (table_told answer) }
{
    match answer {
        Ok(Some(table)) => {
            say_found_columns(alloc, out)?;
            say_found_row(alloc, out, table)?;
            say_selected(alloc, out, 1)
        }
        Ok(None) => {
            say_found_columns(alloc, out)?;
            say_selected(alloc, out, 0)
        }
        Err(fault) => say_refused_ready(alloc, out, Refusal::Asked(fault)),
    }
}

#[tactic(auto, using(pqformat::proofs::Putting::in_place), unfolding(crate::specs::TableAnswers::attribute_columns))]
fn say_attribute_columns(alloc: Global, out: &mut BytesMut) -> Result<(), AllocError>
    ensures { Puts result out.old.items out.new.items attribute_columns }
{
    let number = int2_column(alloc, "attnum")?;
    let name = name_column(alloc, "attname")?;
    let type_oid = oid_column(alloc, "atttypid")?;
    let is_identity = bool_column(alloc, "?column?")?;
    let columns = Vec::from_array(alloc, [number, name, type_oid, is_identity])?;
    say_columns(out, Items::new(columns))
}

fn truth_value(alloc: Global, truth: Option<bool>) -> Result<DataValue, AllocError>
    ensures { IfOk result (λ v. v ≡ truth_value truth) }
{
    match truth {
        None => Ok(DataValue::Null),
        Some(true) => value(alloc, "t"),
        Some(false) => value(alloc, "f"),
    }
}

#[tactic(auto, using(pqformat::proofs::Putting::in_place), unfolding(crate::specs::TableAnswers::attribute_row))]
fn say_attribute(
    alloc: Global,
    out: &mut BytesMut,
    number: u32,
    attribute: &TableAttribute,
) -> Result<(), AllocError>
    requires { IsShort attribute.now.name }
    ensures { Puts result out.old.items out.new.items (attribute_row number attribute.now) }
{
    let number = number_value(alloc, number)?;
    let name = value(alloc, attribute.name.as_str())?;
    let type_oid = number_value(alloc, attribute.type_oid)?;
    let is_identity = truth_value(alloc, attribute.is_identity)?;
    let values = Vec::from_array(alloc, [number, name, type_oid, is_identity])?;
    say_values(out, Items::new(values))
}

#[tactic(auto, using(pqformat::proofs::Putting::in_place))]
fn say_attribute_rows(
    alloc: Global,
    out: &mut BytesMut,
    attributes: &[TableAttribute],
) -> Result<(), AllocError>
    requires { AreShortAttributes attributes.now }
    ensures { Puts result out.old.items out.new.items (attribute_rows 1 attributes.now) }
{
    let mut number = 1;
    for attribute in attributes {
        say_attribute(alloc, out, number, attribute)?;
        number += 1;
    }
    Ok(())
}

/// The columns of a table. `AllocError` where memory is refused; some of it may have been added then.
#[tactic(auto, using(pqformat::proofs::Putting::in_place), unfolding(crate::specs::TableAnswers::attributes_told))]
pub fn say_attributes(
    alloc: Global,
    out: &mut BytesMut,
    answer: Result<Items<TableAttribute>, BackendFault>,
) -> Result<(), AllocError>
    requires { IfOk answer AreShortAttributes }
    ensures { Puts result out.old.items out.new.items (attributes_told answer) }
{
    match answer {
        Ok(attributes) => {
            say_attribute_columns(alloc, out)?;
            say_attribute_rows(alloc, out, attributes.as_slice())?;
            say_selected(alloc, out, attributes.len() as u64)
        }
        Err(fault) => say_refused_ready(alloc, out, Refusal::Asked(fault)),
    }
}
