//! One publication, and several beside each other.

ghost use Rattle.std.specs.Prelude.{◌≡◌, ◌==◌, ◌&&◌, IfOk, find};
ghost use Rattle.std.specs.List.{list_any};
ghost use Rattle.std.specs.Option.{option_copied};
ghost use Rattle.publication_config.specs.Published.{conflicts, has, is_among, is_listed_otherwise, lists_otherwise, publications_named, publishes, table_in};

use crate::operations::{Operation, Operations};
use crate::published_table::PublishedTable;
use pqformat::{Items, Text};
use std::alloc::{AllocError, Global};

/// A publication: its tables, and the operations that it publishes.
#[derive(Drop)]
pub struct Publication {
    pub name: Text,
    pub operations: Operations,
    pub tables: Items<PublishedTable>,
}

impl Publication {
    pub(crate) fn copy(&self, alloc: Global) -> Result<Self, AllocError>
        ensures { IfOk result (λ p. p ≡ self.now) }
    {
        Ok(Publication {
            name: self.name.copy(alloc)?,
            operations: self.operations,
            tables: copies(alloc, self.tables.as_slice())?,
        })
    }

    /// What it publishes of the table of this OID; None where it doesn't have the table.
    pub fn table(&self, oid: u32) -> Option<&PublishedTable>
        ensures { option_copied result ≡ table_in oid self.now }
    {
        self.tables.as_slice().iter().find(|table| table.oid == oid)
    }

    /// Whether the table of this OID is one of its tables.
    pub fn has(&self, oid: u32) -> bool
        ensures { result ≡ has oid self.now }
    {
        self.tables.as_slice().iter().any(|table| table.oid == oid)
    }

    /// Whether it publishes the operation for the table.
    pub fn publishes(&self, operation: Operation, oid: u32) -> bool
        ensures { result ≡ (publishes self.now.operations operation && has oid self.now) }
    {
        self.operations.has(operation) && self.has(oid)
    }

    /// Whether one of the publications of these names has another column list for one of its tables.
    fn is_contradicted_by(&self, publications: &[Publication], names: &[Text]) -> bool
        ensures { result
            ≡ list_any
            (is_listed_otherwise (publications_named names.now publications.now)) self.now.tables }
    {
        let mut tables = self.tables.as_slice().iter();
        tables.any(|table| is_listed_otherwise(publications, names, table))
    }

    /// Whether it has another column list for the table.
    fn lists_otherwise(&self, table: &PublishedTable) -> bool
        ensures { result ≡ lists_otherwise table.now self.now }
    {
        let mut tables = self.tables.as_slice().iter();
        tables.any(|other| other.differs_from(table))
    }

    /// Whether one of the names is its own.
    fn is_among(&self, names: &[Text]) -> bool
        ensures { result ≡ is_among names.now self.now }
    {
        names.iter().any(|name| self.name.as_str() == name.as_str())
    }
}

/// Whether two of the publications of these names have different column lists for one table, which PostgreSQL doesn't serve
/// either (PostgreSQL 15, 31.4).
pub fn conflict(publications: &[Publication], names: &[Text]) -> bool
    ensures { result ≡ conflicts (publications_named names.now publications.now) }
{
    has_contradicted(publications, names)
}

/// The same, asked of all publications.
fn has_contradicted(publications: &[Publication], names: &[Text]) -> bool
    ensures { result
        ≡ list_any
        (λ p. is_among names.now p
        && list_any (is_listed_otherwise (publications_named names.now publications.now)) p.tables)
        publications.now }
{
    publications.iter().any(|p| p.is_among(names) && p.is_contradicted_by(publications, names))
}

/// Whether one of the publications of these names has another column list for the table.
fn is_listed_otherwise(publications: &[Publication], names: &[Text], table: &PublishedTable) -> bool
    ensures { result
        ≡ is_listed_otherwise (publications_named names.now publications.now) table.now }
{
    has_listing_otherwise(publications, names, table)
}

/// The same, asked of all publications.
fn has_listing_otherwise(
    publications: &[Publication],
    names: &[Text],
    table: &PublishedTable,
) -> bool
    ensures { result
        ≡ list_any (λ p. is_among names.now p && lists_otherwise table.now p) publications.now }
{
    publications
        .iter()
        .any(|p| p.is_among(names) && p.lists_otherwise(table))
}

/// Those of the publications that have one of the names. `AllocError` where memory for their copies is refused.
pub fn named(
    alloc: Global,
    publications: &[Publication],
    names: &[Text],
) -> Result<Items<Publication>, AllocError>
    ensures { IfOk result (λ ps. ps ≡ publications_named names.now publications.now) }
{
    let mut named = Vec::new(alloc);
    for publication in publications {
        if publication.is_among(names) {
            named.push(publication.copy(alloc)?)?;
        }
    }
    Ok(Items::new(named))
}

fn copies(alloc: Global, tables: &[PublishedTable]) -> Result<Items<PublishedTable>, AllocError>
    ensures { IfOk result (λ ts. ts ≡ tables.now) }
{
    let mut copies = Vec::with_capacity(alloc, tables.len())?;
    for table in tables {
        copies.push(table.copy(alloc)?)?;
    }
    Ok(Items::new(copies))
}
