//! What an initial copy of a table hands over.

ghost use Rattle.std.specs.Prelude.{◌≡◌, IfOk, map};
ghost use Rattle.std.specs.List.{AllByRecursion};
ghost use Rattle.std.specs.Option.{option_copied};
ghost use Rattle.row_messages.specs.Relations.{FitsTable};
ghost use Rattle.publication.specs.Copied.{copied_by, copied_publication, copied_publications, copied_whole, with_list};

use crate::publications::{Publications, copies};
use crate::selection::Selection;
use pqformat::{Items, Text};
use publication_config::{Operations, Publication, PublishedTable, named};
use std::alloc::{AllocError, Global};
use tables::Table;

impl Publications {
    /// All tables of the catalogue.
    pub fn tables(&self) -> &[Table]
        ensures value { result.now ≡ self.now.tables }
        ensures fit { AllByRecursion FitsTable result.now }
    {
        self.tables.as_slice()
    }

    /// The publications, in the order of the configuration.
    pub fn publications(&self) -> &[Publication]
        ensures { result.now ≡ self.now.publications }
    {
        self.publications.as_slice()
    }

    /// What an initial copy of the table of this OID hands over (PostgreSQL 15, 31.7), as a selection of inserts: the rows that one
    /// of the publications of these names has, or all where no name is given, under this column list. `AllocError` where memory is
    /// refused.
    pub fn copied(&self, oid: u32, listed: &[bool], names: &[Text]) -> Result<Selection, AllocError>
        ensures { IfOk result (λ s. s ≡ copied_by self.now oid listed.now names.now) }
    {
        let publications = copied_publications(
            self.alloc,
            self.publications.as_slice(),
            oid,
            listed,
            names,
        )?;
        let tables = copies(self.alloc, self.tables.as_slice())?;
        Selection::new(self.alloc, tables, publications)
    }
}

fn copied_publications(
    alloc: Global,
    publications: &[Publication],
    oid: u32,
    listed: &[bool],
    names: &[Text],
) -> Result<Items<Publication>, AllocError>
    ensures { IfOk result
        (λ ps. ps ≡ copied_publications oid listed.now names.now publications.now) }
{
    if names.is_empty() {
        let mut whole = Vec::new(alloc);
        whole.push(copied_whole(alloc, oid, listed)?)?;
        return Ok(Items::new(whole));
    }
    let named = named(alloc, publications, names)?;
    each_copied(alloc, named.as_slice(), oid, listed)
}

fn each_copied(
    alloc: Global,
    publications: &[Publication],
    oid: u32,
    listed: &[bool],
) -> Result<Items<Publication>, AllocError>
    ensures { IfOk result (λ ps. ps ≡ map (copied_publication oid listed.now) publications.now) }
{
    let mut copied = Vec::new(alloc);
    for publication in publications {
        copied.push(copied_publication(alloc, publication, oid, listed)?)?;
    }
    Ok(Items::new(copied))
}

fn copied_whole(alloc: Global, oid: u32, listed: &[bool]) -> Result<Publication, AllocError>
    ensures { IfOk result (λ p. p ≡ copied_whole oid listed.now) }
{
    let mut tables = Vec::new(alloc);
    tables.push(PublishedTable {
        oid,
        filter: None,
        listed: Items::new(Vec::from_slice(alloc, listed)?),
    })?;
    Ok(Publication {
        name: Text::new(String::new(alloc)),
        operations: Operations::ALL,
        tables: Items::new(tables),
    })
}

fn copied_publication(
    alloc: Global,
    publication: &Publication,
    oid: u32,
    listed: &[bool],
) -> Result<Publication, AllocError>
    ensures { IfOk result (λ p. p ≡ copied_publication oid listed.now publication.now) }
{
    let tables = with_list(alloc, publication.table(oid), oid, listed)?;
    Ok(Publication {
        name: publication.name.copy(alloc)?,
        operations: Operations::ALL,
        tables: Items::new(tables),
    })
}

fn with_list(
    alloc: Global,
    table: Option<&PublishedTable>,
    oid: u32,
    listed: &[bool],
) -> Result<Vec<PublishedTable>, AllocError>
    ensures { IfOk result (λ ts. ts.items ≡ with_list oid listed.now (option_copied table.entry)) }
{
    let mut tables = Vec::new(alloc);
    if let Some(table) = table {
        let filter = match &table.filter {
            Some(filter) => Some(filter.copy(alloc)?),
            None => None,
        };
        tables.push(PublishedTable {
            oid,
            filter,
            listed: Items::new(Vec::from_slice(alloc, listed)?),
        })?;
    }
    Ok(tables)
}
