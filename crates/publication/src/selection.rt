//! What a sender was asked to publish.

ghost use Rattle.std.specs.Prelude.{◌≡◌, ◌++◌, ◌==◌, [], IfOk, IfSome, option_map, true, false, filter, drop, is_some, length};
ghost use Rattle.std.specs.Option.{option_copied};
ghost use Rattle.std.specs.List.{AllByRecursion, list_all, list_any};
ghost use Rattle.tables.specs.Tables.{table_of, oids_of, repeats};
ghost use Rattle.publication_config.specs.Published.{has};
ghost use Rattle.row_messages.specs.Relations.{FitsTable};
ghost use Rattle.publication.specs.Selection.{has_table, list_by, selected_oids, whole_table};
ghost use Rattle.publication.specs.Projection.{is_published, may_be_emptied, passes};

use crate::rows::passing::passes;
use pqformat::Items;
use publication_config::{Operation, Publication};
use std::alloc::{AllocError, Global};
use std::marker::Model;
use tables::{MAX_TRUNCATED, RowRef, Table, repeats};

/// The publications that a sender was asked for.
///
/// `Publications::select` makes it. For each change of a commit `put` writes its message, if it has one, and `put_relation` the Relation
/// that goes before the first message of a table. `project` and `relation` answer the same as values, and their only error is want of
/// memory. None changes anything.
#[derive(Drop)]
pub struct Selection {
    pub(crate) alloc: Global,
    /// All tables of the catalogue.
    pub(crate) tables: Items<Table>,
    publications: Items<Publication>,
    oids: Items<u32>,
    /// Whether messages of the log are sent too.
    pub(crate) messages: bool,
}

impl Model for Selection {
    ghost use Rattle.std.specs.Prelude.{◌≡◌, false};
    ghost use Rattle.std.specs.List.{AllByRecursion};
    ghost use Rattle.std.specs.Coded.{codes};
    ghost use Rattle.tables.specs.Tables.{oids_of, repeats};
    ghost use Rattle.publication_config.specs.Published.{PublicationSet, condition_code};
    ghost use Rattle.row_messages.specs.Relations.{FitsTable};
    ghost use Rattle.publication.specs.Selection.{selected_oids};

    ghost Value = { PublicationSet };

    ghost coded = { Prim.hlevel (codes, condition_code (Prim.hlevel codes)) };

    ghost view = { λ s. record {
      tables = s.tables;
      publications = s.publications;
      messages = s.messages;
    } };

    ghost invariant = { λ s. AllByRecursion FitsTable s.tables
        × (s.oids
        ≡ selected_oids (record {
          tables = s.tables;
          publications = s.publications;
          messages = s.messages;
        }))
        × (repeats (oids_of s.tables) ≡ false) };
}

impl Selection {
    /// A selection of nothing, which takes no memory.
    pub fn empty(alloc: Global) -> Self
        ensures { result ≡ record { tables = []; publications = []; messages = false } }
    {
        Selection {
            alloc,
            tables: Items::new(Vec::new(alloc)),
            publications: Items::new(Vec::new(alloc)),
            oids: Items::new(Vec::new(alloc)),
            messages: false,
        }
    }

    /// These publications, over the tables of a catalogue. `AllocError` where memory for their OIDs is refused.
    pub fn new(
        alloc: Global,
        tables: Items<Table>,
        publications: Items<Publication>,
    ) -> Result<Self, AllocError>
        requires fit { AllByRecursion FitsTable tables }
        requires each_once { repeats (oids_of tables) ≡ false }
        ensures { IfOk result
            (λ s. s ≡ record { tables = tables; publications = publications; messages = false }) }
    {
        let oids = oids_of(alloc, tables.as_slice(), publications.as_slice())?;
        Ok(Selection {
            alloc,
            tables,
            publications,
            oids,
            messages: false,
        })
    }

    /// The same publications, with the messages of the log or without them; at first they are left out.
    pub fn with_messages(self, messages: bool) -> Self
        ensures { result ≡ record self { messages = messages } }
    {
        let Selection {
            alloc,
            tables,
            publications,
            oids,
            ..
        } = self;
        Selection {
            alloc,
            tables,
            publications,
            oids,
            messages,
        }
    }

    /// The OIDs of its tables, in the order of the catalogue.
    #[tactic(auto, using(crate::proofs::Repeats::no_repeats))]
    pub fn oids(&self) -> &[u32]
        ensures value { result.now ≡ selected_oids self.now }
        ensures each_once { repeats result.now ≡ false }
    {
        self.oids.as_slice()
    }

    /// The table of this OID, with all its columns, if the selection has it.
    pub(crate) fn table(&self, oid: u32) -> Option<&Table>
        ensures value { option_copied result ≡ whole_table self.now oid }
        ensures fits { IfSome result (λ table. FitsTable table.now) }
    {
        if !self.has_table(oid) {
            return None;
        }
        found(self.tables.as_slice(), oid)
    }

    /// The column list for the table of this OID.
    pub(crate) fn listed(&self, oid: u32) -> &[bool]
        ensures { result.now ≡ list_by self.now.publications oid }
    {
        list_by(self.publications.as_slice(), oid)
    }

    pub(crate) fn publishes(&self, operation: Operation, oid: u32) -> bool
        ensures { result ≡ is_published self.now operation oid }
    {
        let mut publications = self.publications.as_slice().iter();
        publications.any(|publication| publication.publishes(operation, oid))
    }

    /// Whether one of the publications lets the row pass (PostgreSQL 15, 31.3.6).
    pub(crate) fn passes(&self, operation: Operation, oid: u32, row: &RowRef<'_>) -> bool
        ensures { result ≡ passes self.now operation oid row.now }
    {
        let mut publications = self.publications.as_slice().iter();
        publications.any(|publication| passes(publication, operation, oid, row))
    }

    fn has_table(&self, oid: u32) -> bool
        ensures { result ≡ has_table self.now oid }
    {
        has_table(self.publications.as_slice(), oid)
    }
}

fn has_table(publications: &[Publication], oid: u32) -> bool
    ensures { result ≡ list_any (has oid) publications.now }
{
    publications.iter().any(|publication| publication.has(oid))
}

/// The column list of the first publication that has the table of this OID.
fn list_by(publications: &[Publication], oid: u32) -> &[bool]
    ensures { result.now ≡ list_by publications.now oid }
{
    for publication in publications {
        if let Some(table) = publication.table(oid) {
            return table.listed.as_slice();
        }
    }
    &[]
}

/// The OIDs of the tables that some publication has.
fn oids_of(
    alloc: Global,
    tables: &[Table],
    publications: &[Publication],
) -> Result<Items<u32>, AllocError>
    ensures { IfOk result
        (λ oids. oids
        ≡ selected_oids
        (record {
          tables = tables.now;
          publications = publications.now;
          messages = false;
        })) }
{
    let mut oids = Vec::new(alloc);
    for table in tables {
        if has_table(publications, table.oid) {
            oids.push(table.oid)?;
        }
    }
    Ok(Items::new(oids))
}

fn found(tables: &[Table], oid: u32) -> Option<&Table>
    ensures { option_copied result ≡ table_of oid tables.now }
{
    tables.iter().find(|table| table.oid == oid)
}

/// Whether a truncate may name these tables.
pub(crate) fn may_be_emptied(tables: &[Table], oids: &[u32]) -> bool
    ensures { result ≡ may_be_emptied tables.now oids.now }
{
    are_known(tables, oids) && !oids.is_empty() && !repeats(oids) && oids.len() <= MAX_TRUNCATED
}

fn are_known(tables: &[Table], oids: &[u32]) -> bool
    ensures { result ≡ list_all (λ oid. is_some (table_of oid tables.now)) oids.now }
{
    oids.iter().all(|oid| found(tables, *oid).is_some())
}
