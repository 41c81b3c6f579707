//! Row filters: what each is of some rows, or why it is none.

use crate::wording::answer::{add_value, bytes_of};
use anyhow::{Context, Result, bail};
use catalog::Catalog;
use rowfilter::{Filter, FilterFault, fault_at, parse};
use std::alloc::{AllocError, Global};
use tables::{Change, Table, read_body};

/// `TABLES|INSERTS|FILTER`: a configuration of one table, and the bodies of inserts, between commas. Adds what the filter is of
/// each row, or its fault and the byte where it stands.
pub fn answer_filter(alloc: Global, given: &str, answer: &mut String) -> Result<()> {
    let (tables, rest) = given.split_once('|').context("gives no rows")?;
    let (inserts, text) = rest.split_once('|').context("gives no filter")?;
    add_configured(alloc, tables, inserts, text, answer)
}

fn add_configured(
    alloc: Global,
    tables: &str,
    inserts: &str,
    text: &str,
    answer: &mut String,
) -> Result<()> {
    let catalog = Catalog::from_toml(alloc, tables)?;
    add_over(alloc, catalog.tables(), inserts, text, answer)
}

fn add_over(
    alloc: Global,
    tables: &[Table],
    inserts: &str,
    text: &str,
    answer: &mut String,
) -> Result<()> {
    match tables {
        [table, ..] => add_filtered(alloc, table, inserts, text, answer),
        [] => bail!("gives no table"),
    }
}

fn add_filtered(
    alloc: Global,
    table: &Table,
    inserts: &str,
    text: &str,
    answer: &mut String,
) -> Result<()> {
    match parse(alloc, text, table) {
        Ok(filter) => add_truths(alloc, &filter, inserts, answer),
        Err(fault) => add_fault(alloc, table, text, fault, answer),
    }
}

fn add_fault(
    alloc: Global,
    table: &Table,
    text: &str,
    fault: FilterFault,
    answer: &mut String,
) -> Result<()> {
    let at = fault_at(alloc, text, table, fault)?;
    Ok(write!(answer, "! {at} {fault}")?)
}

fn add_truths(alloc: Global, filter: &Filter, inserts: &str, answer: &mut String) -> Result<()> {
    answer.push('=')?;
    for insert in inserts.split_terminator(',') {
        add_truth(alloc, filter, insert, answer)?;
    }
    Ok(())
}

fn add_truth(alloc: Global, filter: &Filter, insert: &str, answer: &mut String) -> Result<()> {
    let bytes = bytes_of(alloc, insert)?;
    add_truth_of(alloc, filter, bytes.as_slice(), answer)
}

fn add_truth_of(alloc: Global, filter: &Filter, body: &[u8], answer: &mut String) -> Result<()> {
    let change = read_body(alloc, body)?;
    let added = add_truth_in(filter, &change, answer);
    drop(change);
    Ok(added?)
}

fn add_truth_in(filter: &Filter, change: &Change, answer: &mut String) -> Result<(), AllocError> {
    match change {
        Change::Insert(_, row) => add_value(answer, &filter.truth(row)),
        _ => Ok(()),
    }
}
