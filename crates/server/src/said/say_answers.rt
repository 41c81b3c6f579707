//! What the server says to questions, and how it greets who may ask them.

ghost use Rattle.std.specs.Prelude.{◌≡◌, ◌≤◌, ◌++◌, length, codes, string_bytes, IfOk};
ghost use Rattle.std.specs.Fmt.{decimal};
ghost use Rattle.std.specs.List.{flat_map, AllByRecursion};
ghost use Rattle.pqformat.specs.Putting.{Puts};
ghost use Rattle.server.specs.Answers.{IsShort, IsShortName, single_row, single_column, table_row, table_columns, end_of_rows, path_set, publications_told, tables_told, value_shown};
ghost use Rattle.server.specs.Said.{other_greeting};

use crate::asked::table_name::TableName;
use crate::backend_fault::BackendFault;
use crate::refusal::Refusal;
use crate::said::say::{
    say_authenticated, say_columns, say_completed, say_key, say_ready, say_refused_ready,
    say_status, say_values, text_column, value,
};
use bytes::BytesMut;
use pqformat::{Items, Text};
use std::alloc::{AllocError, Global};

/// The beginning of a session that may ask questions. `AllocError` where memory is refused; some of it may have been added
/// then.
#[tactic(auto, using(pqformat::proofs::Putting::in_place), unfolding(crate::specs::Said::other_greeting))]
pub fn say_other_greeting(alloc: Global, out: &mut BytesMut, number: u32) -> Result<(), AllocError>
    ensures { Puts result out.old.items out.new.items (other_greeting number) }
{
    say_authenticated(out)?;
    say_status(alloc, out, "server_version", "15.0")?;
    say_status(alloc, out, "client_encoding", "UTF8")?;
    say_status(alloc, out, "integer_datetimes", "on")?;
    say_key(out, number)?;
    say_ready(out)
}

#[tactic(auto, using(pqformat::proofs::Putting::in_place), unfolding(crate::specs::Answers::single_column))]
fn say_single_column(alloc: Global, out: &mut BytesMut, name: &str) -> Result<(), AllocError>
    requires { length name.now ≤ 63 }
    ensures { Puts result out.old.items out.new.items (single_column name.now) }
{
    let column = text_column(alloc, name)?;
    let columns = Vec::from_array(alloc, [column])?;
    say_columns(out, Items::new(columns))
}

#[tactic(auto, using(pqformat::proofs::Putting::in_place), unfolding(crate::specs::Answers::single_row))]
fn say_single_row(alloc: Global, out: &mut BytesMut, text: &str) -> Result<(), AllocError>
    requires { IsShort text.now }
    ensures { Puts result out.old.items out.new.items (single_row text.now) }
{
    let value = value(alloc, text)?;
    let values = Vec::from_array(alloc, [value])?;
    say_values(out, Items::new(values))
}

#[tactic(auto, using(pqformat::proofs::Putting::in_place))]
fn say_names(alloc: Global, out: &mut BytesMut, names: &[Text]) -> Result<(), AllocError>
    requires { AllByRecursion IsShort names.now }
    ensures { Puts result out.old.items out.new.items (flat_map single_row names.now) }
{
    for name in names {
        say_single_row(alloc, out, name.as_str())?;
    }
    Ok(())
}

#[tactic(auto, using(pqformat::proofs::Putting::in_place), unfolding(crate::specs::Answers::table_columns))]
fn say_table_columns(alloc: Global, out: &mut BytesMut) -> Result<(), AllocError>
    ensures { Puts result out.old.items out.new.items table_columns }
{
    let schema = text_column(alloc, "schemaname")?;
    let name = text_column(alloc, "tablename")?;
    let columns = Vec::from_array(alloc, [schema, name])?;
    say_columns(out, Items::new(columns))
}

#[tactic(auto, using(pqformat::proofs::Putting::in_place), unfolding(crate::specs::Answers::table_row))]
fn say_table(alloc: Global, out: &mut BytesMut, table: &TableName) -> Result<(), AllocError>
    requires { IsShortName table.now }
    ensures { Puts result out.old.items out.new.items (table_row table.now) }
{
    let schema = value(alloc, table.schema.as_str())?;
    let name = value(alloc, table.name.as_str())?;
    let values = Vec::from_array(alloc, [schema, name])?;
    say_values(out, Items::new(values))
}

#[tactic(auto, using(pqformat::proofs::Putting::in_place))]
fn say_tables(alloc: Global, out: &mut BytesMut, tables: &[TableName]) -> Result<(), AllocError>
    requires { AllByRecursion IsShortName tables.now }
    ensures { Puts result out.old.items out.new.items (flat_map table_row tables.now) }
{
    for table in tables {
        say_table(alloc, out, table)?;
    }
    Ok(())
}

fn selected_tag(alloc: Global, count: u64) -> Result<String, AllocError>
    ensures { IfOk result (λ s. string_bytes s ≡ codes "SELECT " ++ decimal count) }
{
    format!(in alloc; "SELECT {count}")
}

/// The end of an answer of so many rows.
#[tactic(auto, using(pqformat::proofs::Putting::in_place), unfolding(crate::specs::Answers::end_of_rows))]
pub(crate) fn say_selected(alloc: Global, out: &mut BytesMut, count: u64) -> Result<(), AllocError>
    ensures { Puts result out.old.items out.new.items (end_of_rows count) }
{
    let tag = selected_tag(alloc, count)?;
    say_completed(alloc, out, tag.as_str())?;
    say_ready(out)
}

/// That the search path is empty. `AllocError` where memory is refused; some of it may have been added then.
#[tactic(auto, using(pqformat::proofs::Putting::in_place), unfolding(crate::specs::Answers::path_set))]
pub fn say_path_set(alloc: Global, out: &mut BytesMut) -> Result<(), AllocError>
    ensures { Puts result out.old.items out.new.items path_set }
{
    say_single_column(alloc, out, "set_config")?;
    say_single_row(alloc, out, "")?;
    say_selected(alloc, out, 1)
}

/// The value of a parameter. `AllocError` where memory is refused; some of it may have been added then.
#[tactic(auto, using(pqformat::proofs::Putting::in_place), unfolding(crate::specs::Answers::value_shown))]
pub fn say_shown(
    alloc: Global,
    out: &mut BytesMut,
    name: &str,
    value: &str,
) -> Result<(), AllocError>
    requires name { length name.now ≤ 63 }
    requires value { length value.now ≤ 63 }
    ensures { Puts result out.old.items out.new.items (value_shown name.now value.now) }
{
    say_single_column(alloc, out, name)?;
    say_single_row(alloc, out, value)?;
    say_completed(alloc, out, "SHOW")?;
    say_ready(out)
}

/// The publications that were found. `AllocError` where memory is refused; some of it may have been added then.
#[tactic(auto, using(pqformat::proofs::Putting::in_place), unfolding(crate::specs::Answers::publications_told))]
pub fn say_publications(
    alloc: Global,
    out: &mut BytesMut,
    answer: Result<Items<Text>, BackendFault>,
) -> Result<(), AllocError>
    requires { IfOk answer (λ names. AllByRecursion IsShort names) }
    ensures { Puts result out.old.items out.new.items (publications_told answer) }
{
    match answer {
        Ok(names) => {
            say_single_column(alloc, out, "pubname")?;
            say_names(alloc, out, names.as_slice())?;
            say_selected(alloc, out, names.as_slice().len() as u64)
        }
        Err(fault) => say_refused_ready(alloc, out, Refusal::Asked(fault)),
    }
}

/// The tables that were found. `AllocError` where memory is refused; some of it may have been added then.
#[tactic(auto, using(pqformat::proofs::Putting::in_place), unfolding(crate::specs::Answers::tables_told))]
pub fn say_found_tables(
    alloc: Global,
    out: &mut BytesMut,
    answer: Result<Items<TableName>, BackendFault>,
) -> Result<(), AllocError>
    requires { IfOk answer (λ tables. AllByRecursion IsShortName tables) }
    ensures { Puts result out.old.items out.new.items (tables_told answer) }
{
    match answer {
        Ok(tables) => {
            say_table_columns(alloc, out)?;
            say_tables(alloc, out, tables.as_slice())?;
            say_selected(alloc, out, tables.len() as u64)
        }
        Err(fault) => say_refused_ready(alloc, out, Refusal::Asked(fault)),
    }
}
