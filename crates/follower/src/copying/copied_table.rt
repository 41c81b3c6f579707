//! What a server tells of a table that is copied.

use crate::copying::asked_rows::{TextValue, ask_rows, number_at, text_at};
use crate::copying::questions::{attributes, column_lists, row_filters, table};
use crate::fault::FollowFault;
use crate::receiving::incoming::Incoming;
use client::ClientFault;
use pgoutput::{Column, Identity, Relation};
use pqformat::{Items, Text};
use std::alloc::Global;
use std::io::{Read, Write};
use std::sync::Wait;

/// A table, with its columns that are published.
#[derive(Drop)]
pub(crate) struct CopiedTable {
    pub(crate) relation: Relation,
    /// Filters, of which a row is to pass one; without any, all rows do.
    pub(crate) filters: Vec<String>,
}

impl CopiedTable {
    /// Asks for it. Its columns have no modifier, since no subscriber asks for them before a stream. Faults as of `ask_rows`; K2
    /// too where the table is gone meanwhile.
    pub(crate) fn ask<R: Wait, S: Read + Write>(
        rt: &R,
        alloc: Global,
        incoming: &mut Incoming,
        socket: &mut S,
        name: &[TextValue],
        publications: &[Text],
    ) -> Result<Self, FollowFault> {
        let found = ask_table(rt, alloc, incoming, socket, name)?;
        let columns = ask_columns(rt, alloc, incoming, socket, found, publications)?;
        let relation = relation_of(alloc, name, found, columns)?;
        match ask_filters(rt, alloc, incoming, socket, found, publications) {
            Ok(filters) => Ok(CopiedTable { relation, filters }),
            Err(fault) => {
                // Let go before the way out, which keeps the proof short.
                drop(relation);
                Err(fault)
            }
        }
    }
}

/// A table as it was found by its name.
#[derive(Clone, Copy)]
struct NamedTable {
    oid: u32,
    identity: Identity,
}

fn ask_table<R: Wait, S: Read + Write>(
    rt: &R,
    alloc: Global,
    incoming: &mut Incoming,
    socket: &mut S,
    name: &[TextValue],
) -> Result<NamedTable, FollowFault> {
    let asked = table(alloc, text_at(name, 0)?, text_at(name, 1)?)?;
    let told = ask_rows(rt, alloc, incoming, socket, asked)?;
    let found = found_in(told.as_slice());
    // Let go before the way out, which keeps the proof short.
    drop(told);
    found
}

fn found_in(rows: &[Vec<TextValue>]) -> Result<NamedTable, FollowFault> {
    let row = only(rows)?;
    Ok(NamedTable {
        oid: number_at(row, 0)?,
        identity: identity_of(text_at(row, 1)?)?,
    })
}

/// Its columns that are published.
fn ask_columns<R: Wait, S: Read + Write>(
    rt: &R,
    alloc: Global,
    incoming: &mut Incoming,
    socket: &mut S,
    found: NamedTable,
    publications: &[Text],
) -> Result<Vec<Column>, FollowFault> {
    let asked = column_lists(alloc, found.oid, publications)?;
    let lists = ask_rows(rt, alloc, incoming, socket, asked)?;
    let columns = ask_listed(rt, alloc, incoming, socket, found, lists.as_slice());
    // Let go before the way out, which keeps the proof short.
    drop(lists);
    columns
}

fn ask_listed<R: Wait, S: Read + Write>(
    rt: &R,
    alloc: Global,
    incoming: &mut Incoming,
    socket: &mut S,
    found: NamedTable,
    lists: &[Vec<TextValue>],
) -> Result<Vec<Column>, FollowFault> {
    let list = only(lists)?;
    let all = ask_rows(rt, alloc, incoming, socket, attributes(alloc, found.oid)?)?;
    let columns = columns_of(alloc, all.as_slice(), list, found.identity);
    // Let go before the way out, which keeps the proof short.
    drop(all);
    columns
}

fn ask_filters<R: Wait, S: Read + Write>(
    rt: &R,
    alloc: Global,
    incoming: &mut Incoming,
    socket: &mut S,
    found: NamedTable,
    publications: &[Text],
) -> Result<Vec<String>, FollowFault> {
    let asked = row_filters(alloc, found.oid, publications)?;
    let filters = ask_rows(rt, alloc, incoming, socket, asked)?;
    filters_of(alloc, filters)
}

fn relation_of(
    alloc: Global,
    name: &[TextValue],
    found: NamedTable,
    columns: Vec<Column>,
) -> Result<Relation, FollowFault> {
    Ok(Relation {
        oid: found.oid,
        namespace: Text::copy_of(alloc, text_at(name, 0)?)?,
        name: Text::copy_of(alloc, text_at(name, 1)?)?,
        identity: found.identity,
        columns: Items::new(columns),
    })
}

/// The one row of an answer.
fn only(rows: &[Vec<TextValue>]) -> Result<&[TextValue], FollowFault> {
    match rows {
        [row] => Ok(row.as_slice()),
        _ => Err(FollowFault::Client(ClientFault::Order)),
    }
}

/// The identity of this letter, as pg_class has it (PostgreSQL 15, 53.11).
fn identity_of(letter: &str) -> Result<Identity, FollowFault> {
    match letter {
        "d" => Ok(Identity::Default),
        "n" => Ok(Identity::Nothing),
        "f" => Ok(Identity::Full),
        "i" => Ok(Identity::Index),
        _ => Err(FollowFault::Client(ClientFault::Order)),
    }
}

/// Those of the columns that the list names by their numbers, or all.
fn columns_of(
    alloc: Global,
    all: &[Vec<TextValue>],
    list: &[TextValue],
    identity: Identity,
) -> Result<Vec<Column>, FollowFault> {
    let mut columns = Vec::new(alloc);
    for row in all {
        if is_listed(list, text_at(row.as_slice(), 0)?) {
            columns.push(column_of(alloc, row.as_slice(), identity)?)?;
        }
    }
    Ok(columns)
}

fn is_listed(list: &[TextValue], number: &str) -> bool {
    match list.first() {
        Some(Some(numbers)) => numbers.as_str().split(' ').any(|listed| listed == number),
        Some(None) | None => true,
    }
}

/// With a full identity all columns belong to it, as a stream's Relation has them.
fn column_of(alloc: Global, row: &[TextValue], identity: Identity) -> Result<Column, FollowFault> {
    let is_of_index = match row.get(3) {
        Some(Some(told)) => told.as_str() == "t",
        Some(None) | None => false,
    };
    Ok(Column {
        is_key: is_of_index || identity == Identity::Full,
        name: Text::copy_of(alloc, text_at(row, 1)?)?,
        kind: number_at(row, 2)?,
        modifier: -1,
    })
}

/// The filters. A null among them is a publication without one, by which all rows pass.
fn filters_of(alloc: Global, rows: Vec<Vec<TextValue>>) -> Result<Vec<String>, FollowFault> {
    let mut filters = Vec::new(alloc);
    for row in rows {
        match row.into_iter().next() {
            Some(Some(filter)) => filters.push(filter)?,
            Some(None) | None => return Ok(Vec::new(alloc)),
        }
    }
    Ok(filters)
}
