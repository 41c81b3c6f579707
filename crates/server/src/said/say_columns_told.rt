//! What the server says of the tables of publications, with their columns.

ghost use Rattle.std.specs.Prelude.{◌≡◌, ◌≤◌, ◌^◌, length, IfOk};
ghost use Rattle.std.specs.List.{flat_map, AllByRecursion};
ghost use Rattle.frames.specs.declared.backend.data_row.DataValue.TheVariants.{Bytes};
ghost use Rattle.pqformat.specs.Putting.{Puts};
ghost use Rattle.server.specs.Answers.{AreShortColumns, array_columns, columns_row, columns_told};
ghost use Rattle.server.specs.Arrays.{array_text};

use crate::asked::table_name::TableColumns;
use crate::backend_fault::BackendFault;
use crate::refusal::Refusal;
use crate::said::array::array_text;
use crate::said::say::{say_columns, say_refused_ready, say_values, text_column, value};
use crate::said::say_answers::say_selected;
use bytes::BytesMut;
use frames::DataValue;
use pqformat::{Items, Text};
use std::alloc::{AllocError, Global};

#[tactic(auto, using(pqformat::proofs::Putting::in_place), unfolding(crate::specs::Answers::array_columns))]
fn say_array_columns(alloc: Global, out: &mut BytesMut) -> Result<(), AllocError>
    ensures { Puts result out.old.items out.new.items array_columns }
{
    let schema = text_column(alloc, "schemaname")?;
    let name = text_column(alloc, "tablename")?;
    let columns = text_column(alloc, "attnames")?;
    let columns = Vec::from_array(alloc, [schema, name, columns])?;
    say_columns(out, Items::new(columns))
}

/// The value of an array of names.
#[tactic(auto, using(crate::proofs::Arrays::array_short))]
fn array_value(alloc: Global, names: &[Text]) -> Result<DataValue, AllocError>
    requires few { length names.now ≤ 64 }
    requires short { AllByRecursion (λ name. length name ≤ 63) names.now }
    ensures value { IfOk result (λ v. v ≡ Bytes (array_text names.now)) }
    ensures small { IfOk result (λ _. length (array_text names.now) ≤ 2 ^ 16) }
{
    let array = array_text(alloc, names)?;
    Ok(DataValue::Bytes(Items::new(array)))
}

#[tactic(auto, using(pqformat::proofs::Putting::in_place), unfolding(crate::specs::Answers::columns_row))]
fn say_columns_row(
    alloc: Global,
    out: &mut BytesMut,
    found: &TableColumns,
) -> Result<(), AllocError>
    requires { AreShortColumns found.now }
    ensures { Puts result out.old.items out.new.items (columns_row found.now) }
{
    let schema = value(alloc, found.table.schema.as_str())?;
    let name = value(alloc, found.table.name.as_str())?;
    let columns = array_value(alloc, found.columns.as_slice())?;
    let values = Vec::from_array(alloc, [schema, name, columns])?;
    say_values(out, Items::new(values))
}

#[tactic(auto, using(pqformat::proofs::Putting::in_place))]
fn say_columns_rows(
    alloc: Global,
    out: &mut BytesMut,
    tables: &[TableColumns],
) -> Result<(), AllocError>
    requires { AllByRecursion AreShortColumns tables.now }
    ensures { Puts result out.old.items out.new.items (flat_map columns_row tables.now) }
{
    for found in tables {
        say_columns_row(alloc, out, found)?;
    }
    Ok(())
}

/// The tables that were found, with their columns that are published. `AllocError` where memory is refused; some of it may have
/// been added then.
#[tactic(auto, using(pqformat::proofs::Putting::in_place), unfolding(crate::specs::Answers::columns_told))]
pub fn say_found_columns(
    alloc: Global,
    out: &mut BytesMut,
    answer: Result<Items<TableColumns>, BackendFault>,
) -> Result<(), AllocError>
    requires { IfOk answer (λ tables. AllByRecursion AreShortColumns tables) }
    ensures { Puts result out.old.items out.new.items (columns_told answer) }
{
    match answer {
        Ok(tables) => {
            say_array_columns(alloc, out)?;
            say_columns_rows(alloc, out, tables.as_slice())?;
            say_selected(alloc, out, tables.len() as u64)
        }
        Err(fault) => say_refused_ready(alloc, out, Refusal::Asked(fault)),
    }
}
