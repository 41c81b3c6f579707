//! Publications: what they make of changes, and why some are none.

use crate::wording::answer::{add_value, bytes_of, tell_fault};
use anyhow::{Context, Result, bail};
use catalog::{Catalog, read_document};
use pgoutput::read_logical;
use pqformat::Text;
use publication::{MAX_MESSAGE_LENGTH, Projected, PubFault, Publications, Selection, explained};
use std::alloc::{AllocError, Global};
use tables::{Change, read_body};
use toml::Value;

/// Where the records of all changes start; no message of a row or a table tells of it.
const POSITION: u64 = 0;

/// `NAMES|BODIES|TABLES|PUBLICATIONS`: names and bodies of changes between commas, and two configurations. Adds the Relation of
/// each table, and what is published of each change.
pub fn answer_published(alloc: Global, given: &str, answer: &mut String) -> Result<()> {
    let (names, rest) = given.split_once('|').context("gives no changes")?;
    let (bodies, configured) = rest.split_once('|').context("gives no tables")?;
    add_configured(alloc, configured, names, bodies, answer)
}

fn add_configured(
    alloc: Global,
    configured: &str,
    names: &str,
    bodies: &str,
    answer: &mut String,
) -> Result<()> {
    match publications_of(alloc, configured)? {
        Ok(publications) => add_selected(alloc, &publications, names, bodies, answer),
        Err(fault) => Ok(tell_fault(answer, &fault)?),
    }
}

fn publications_of(alloc: Global, configured: &str) -> Result<Result<Publications, PubFault>> {
    let (tables, text) = configured.split_once('|').context("gives no publications")?;
    let catalog = Catalog::from_toml(alloc, tables)?;
    Ok(Publications::from_toml(alloc, text, &catalog))
}

fn add_selected(
    alloc: Global,
    publications: &Publications,
    names: &str,
    bodies: &str,
    answer: &mut String,
) -> Result<()> {
    let names = named(alloc, names)?;
    add_named(alloc, publications, names.as_slice(), bodies, answer)
}

fn named(alloc: Global, names: &str) -> Result<Vec<Text>, AllocError> {
    let mut named = Vec::new(alloc);
    for name in names.split(',') {
        named.push(Text::copy_of(alloc, name)?)?;
    }
    Ok(named)
}

fn add_named(
    alloc: Global,
    publications: &Publications,
    names: &[Text],
    bodies: &str,
    answer: &mut String,
) -> Result<()> {
    match publications.select(names) {
        Ok(selection) => add_published(alloc, &selection, bodies, answer),
        Err(fault) => Ok(tell_fault(answer, &fault)?),
    }
}

fn add_published(
    alloc: Global,
    selection: &Selection,
    bodies: &str,
    answer: &mut String,
) -> Result<()> {
    add_relations(selection, answer)?;
    for body in bodies.split_terminator(',') {
        add_message(alloc, selection, body, answer)?;
    }
    Ok(())
}

fn add_relations(selection: &Selection, answer: &mut String) -> Result<(), AllocError> {
    answer.push('=')?;
    for oid in selection.oids() {
        add_relation(selection, *oid, answer)?;
    }
    Ok(())
}

fn add_relation(selection: &Selection, oid: u32, answer: &mut String) -> Result<(), AllocError> {
    let relation = selection.relation(oid)?;
    let added = add_value(answer, &relation);
    drop(relation);
    added
}

fn add_message(
    alloc: Global,
    selection: &Selection,
    body: &str,
    answer: &mut String,
) -> Result<()> {
    let bytes = bytes_of(alloc, body)?;
    add_projected(alloc, selection, bytes.as_slice(), answer)
}

fn add_projected(
    alloc: Global,
    selection: &Selection,
    body: &[u8],
    answer: &mut String,
) -> Result<()> {
    let projected = projected(alloc, selection, body)?;
    let added = add_put(alloc, selection, body, &projected, answer);
    drop(projected);
    added
}

fn add_put(
    alloc: Global,
    selection: &Selection,
    body: &[u8],
    projected: &Projected,
    answer: &mut String,
) -> Result<()> {
    let put = put(alloc, selection, body)?;
    let added = add_both(projected, &put, answer);
    drop(put);
    Ok(added?)
}

fn add_both(projected: &Projected, put: &Projected, answer: &mut String) -> Result<(), AllocError> {
    write!(answer, " {projected:?}")?;
    if are_same(projected, put) {
        return Ok(());
    }
    write!(answer, " but is put as {put:?}")
}

fn are_same(projected: &Projected, put: &Projected) -> bool {
    match (projected, put) {
        (Projected::Nothing, Projected::Nothing) => true,
        (Projected::Message(projected), Projected::Message(put)) => projected == put,
        _ => false,
    }
}

/// The message that is made of a change.
fn projected(alloc: Global, selection: &Selection, body: &[u8]) -> Result<Projected> {
    let change = read_body(alloc, body)?;
    projected_of(selection, &change)
}

fn projected_of(selection: &Selection, change: &Change) -> Result<Projected> {
    Ok(selection.project(POSITION, change)?)
}

/// The message that is written straight from its body.
fn put(alloc: Global, selection: &Selection, body: &[u8]) -> Result<Projected> {
    let mut out = [0; MAX_MESSAGE_LENGTH];
    match selection.put(POSITION, body, &mut out) {
        Some(length) => read_put(alloc, out.get(..length)),
        None => Ok(Projected::Nothing),
    }
}

fn read_put(alloc: Global, message: Option<&[u8]>) -> Result<Projected> {
    let message = message.context("is put past its room")?;
    Ok(Projected::Message(read_logical(alloc, message)?))
}

/// `TABLES|PUBLICATIONS`: the same for whoever wrote a text that is refused.
pub fn answer_explained(alloc: Global, given: &str, answer: &mut String) -> Result<()> {
    let (tables, text) = given.split_once('|').context("gives no publications")?;
    let catalog = Catalog::from_toml(alloc, tables)?;
    add_read(alloc, &catalog, text, answer)
}

fn add_read(alloc: Global, catalog: &Catalog, text: &str, answer: &mut String) -> Result<()> {
    let document = read_document(alloc, text)?;
    add_explained(alloc, catalog, &document, answer)
}

fn add_explained(
    alloc: Global,
    catalog: &Catalog,
    document: &Value,
    answer: &mut String,
) -> Result<()> {
    match Publications::of_document(alloc, document, catalog) {
        Ok(_) => bail!("is no refusal"),
        Err(fault) => add_lines(alloc, catalog, document, fault, answer),
    }
}

fn add_lines(
    alloc: Global,
    catalog: &Catalog,
    document: &Value,
    fault: PubFault,
    answer: &mut String,
) -> Result<()> {
    let lines = explained(alloc, document, catalog, fault)?;
    Ok(write!(answer, "= {lines:?}")?)
}
