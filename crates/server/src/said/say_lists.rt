//! What the server says of how a table is published: its columns, and the filters of its rows.

ghost use Rattle.std.specs.Prelude.{◌≡◌, ◌≤◌, ◌^◌, ◌++◌, length, string_bytes, IfOk, OnOk};
ghost use Rattle.std.specs.Fmt.{decimal};
ghost use Rattle.std.specs.List.{flat_map, AllByRecursion};
ghost use Rattle.pqformat.specs.Putting.{Puts};
ghost use Rattle.server.specs.Said.{IsSmall};
ghost use Rattle.server.specs.TableAnswers.{IsShortFilter, IsShortList, filter_columns, filter_row, filter_value, filters_told, further_number, list_columns, list_row, list_value, lists_told, numbers_text};

use crate::backend_fault::BackendFault;
use crate::refusal::Refusal;
use crate::said::column_types::int2vector_column;
use crate::said::say::{say_columns, say_refused_ready, say_values, text_column, value};
use crate::said::say_answers::say_selected;
use bytes::BytesMut;
use frames::DataValue;
use pqformat::{Items, Text};
use std::alloc::{AllocError, Global};

#[tactic(auto, using(pqformat::proofs::Putting::in_place), unfolding(crate::specs::TableAnswers::list_columns))]
fn say_list_columns(alloc: Global, out: &mut BytesMut) -> Result<(), AllocError>
    ensures { Puts result out.old.items out.new.items list_columns }
{
    let column = int2vector_column(alloc, "attrs")?;
    let columns = Vec::from_array(alloc, [column])?;
    say_columns(out, Items::new(columns))
}

/// The numbers after the first.
fn push_others(text: &mut String, numbers: &[u16]) -> Result<(), AllocError>
    ensures { OnOk result (string_bytes text.new ≡ string_bytes text.old ++ flat_map further_number numbers.now) }
{
    for number in numbers {
        write!(text, " {number}")?;
    }
    Ok(())
}

fn numbers_text(alloc: Global, numbers: &[u16]) -> Result<String, AllocError>
    ensures { IfOk result (λ text. string_bytes text ≡ numbers_text numbers.now) }
{
    let mut text = String::new(alloc);
    if let Some((first, others)) = numbers.split_first() {
        write!(text, "{first}")?;
        push_others(&mut text, others)?;
    }
    Ok(text)
}

fn list_value(alloc: Global, numbers: &Option<Items<u16>>) -> Result<DataValue, AllocError>
    requires { IsShortList numbers.now }
    ensures value { IfOk result (λ v. v ≡ list_value numbers.now) }
    ensures small { IfOk result IsSmall }
{
    match numbers {
        None => Ok(DataValue::Null),
        Some(numbers) => {
            let text = numbers_text(alloc, numbers.as_slice())?;
            value(alloc, text.as_str())
        }
    }
}

#[tactic(auto, using(pqformat::proofs::Putting::in_place), unfolding(crate::specs::TableAnswers::list_row))]
fn say_list(
    alloc: Global,
    out: &mut BytesMut,
    numbers: &Option<Items<u16>>,
) -> Result<(), AllocError>
    requires { IsShortList numbers.now }
    ensures { Puts result out.old.items out.new.items (list_row numbers.now) }
{
    let value = list_value(alloc, numbers)?;
    let values = Vec::from_array(alloc, [value])?;
    say_values(out, Items::new(values))
}

#[tactic(auto, using(pqformat::proofs::Putting::in_place))]
fn say_lists(
    alloc: Global,
    out: &mut BytesMut,
    lists: &[Option<Items<u16>>],
) -> Result<(), AllocError>
    requires { AllByRecursion IsShortList lists.now }
    ensures { Puts result out.old.items out.new.items (flat_map list_row lists.now) }
{
    for numbers in lists {
        say_list(alloc, out, numbers)?;
    }
    Ok(())
}

/// The lists of columns that are published. `AllocError` where memory is refused; some of it may have been added then.
#[tactic(auto, using(pqformat::proofs::Putting::in_place), unfolding(crate::specs::TableAnswers::lists_told))]
pub fn say_column_lists(
    alloc: Global,
    out: &mut BytesMut,
    answer: Result<Items<Option<Items<u16>>>, BackendFault>,
) -> Result<(), AllocError>
    requires { IfOk answer (λ lists. AllByRecursion IsShortList lists) }
    ensures { Puts result out.old.items out.new.items (lists_told answer) }
{
    match answer {
        Ok(lists) => {
            say_list_columns(alloc, out)?;
            say_lists(alloc, out, lists.as_slice())?;
            say_selected(alloc, out, lists.len() as u64)
        }
        Err(fault) => say_refused_ready(alloc, out, Refusal::Asked(fault)),
    }
}

#[tactic(auto, using(pqformat::proofs::Putting::in_place), unfolding(crate::specs::TableAnswers::filter_columns))]
fn say_filter_columns(alloc: Global, out: &mut BytesMut) -> Result<(), AllocError>
    ensures { Puts result out.old.items out.new.items filter_columns }
{
    let column = text_column(alloc, "pg_get_expr")?;
    let columns = Vec::from_array(alloc, [column])?;
    say_columns(out, Items::new(columns))
}

fn filter_value(alloc: Global, filter: &Option<Text>) -> Result<DataValue, AllocError>
    ensures { IfOk result (λ v. v ≡ filter_value filter.now) }
{
    match filter {
        None => Ok(DataValue::Null),
        Some(filter) => value(alloc, filter.as_str()),
    }
}

#[tactic(auto, using(pqformat::proofs::Putting::in_place), unfolding(crate::specs::TableAnswers::filter_row))]
fn say_filter(alloc: Global, out: &mut BytesMut, filter: &Option<Text>) -> Result<(), AllocError>
    requires { IsShortFilter filter.now }
    ensures { Puts result out.old.items out.new.items (filter_row filter.now) }
{
    let value = filter_value(alloc, filter)?;
    let values = Vec::from_array(alloc, [value])?;
    say_values(out, Items::new(values))
}

#[tactic(auto, using(pqformat::proofs::Putting::in_place))]
fn say_filters(
    alloc: Global,
    out: &mut BytesMut,
    filters: &[Option<Text>],
) -> Result<(), AllocError>
    requires { AllByRecursion IsShortFilter filters.now }
    ensures { Puts result out.old.items out.new.items (flat_map filter_row filters.now) }
{
    for filter in filters {
        say_filter(alloc, out, filter)?;
    }
    Ok(())
}

/// The row filters of a table. `AllocError` where memory is refused; some of it may have been added then.
#[tactic(auto, using(pqformat::proofs::Putting::in_place), unfolding(crate::specs::TableAnswers::filters_told))]
pub fn say_row_filters(
    alloc: Global,
    out: &mut BytesMut,
    answer: Result<Items<Option<Text>>, BackendFault>,
) -> Result<(), AllocError>
    requires { IfOk answer (λ filters. AllByRecursion IsShortFilter filters) }
    ensures { Puts result out.old.items out.new.items (filters_told answer) }
{
    match answer {
        Ok(filters) => {
            say_filter_columns(alloc, out)?;
            say_filters(alloc, out, filters.as_slice())?;
            say_selected(alloc, out, filters.len() as u64)
        }
        Err(fault) => say_refused_ready(alloc, out, Refusal::Asked(fault)),
    }
}
