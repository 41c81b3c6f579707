//! What a publication lets pass.

ghost use Rattle.std.specs.Prelude.{◌≡◌};
ghost use Rattle.std.specs.List.{list_any};
ghost use Rattle.publication.specs.Publications.{admits, lets_pass, passes_in};

use publication_config::{Operation, Publication, PublishedTable};
use tables::RowRef;

/// Whether the publication publishes the operation for the table of this OID, and lets the row pass.
pub(crate) fn passes(
    publication: &Publication,
    operation: Operation,
    oid: u32,
    row: &RowRef<'_>,
) -> bool
    ensures { result ≡ passes_in operation oid row.now publication.now }
{
    publication.operations.has(operation) && has_passed(publication, oid, row)
}

/// Whether the publication has the table, and lets the row pass.
fn has_passed(publication: &Publication, oid: u32, row: &RowRef<'_>) -> bool
    ensures { result ≡ list_any (admits oid row.now) publication.now.tables }
{
    let mut tables = publication.tables.as_slice().iter();
    tables.any(|table| admits(table, oid, row))
}

/// Whether it is the table of this OID, and lets the row pass.
fn admits(table: &PublishedTable, oid: u32, row: &RowRef<'_>) -> bool
    ensures { result ≡ admits oid row.now table.now }
{
    table.oid == oid && lets_pass(table, row)
}

/// Whether the filter is true of the row. One that is unknown doesn't let it pass (PostgreSQL 15, 31.3.1).
fn lets_pass(table: &PublishedTable, row: &RowRef<'_>) -> bool
    ensures { result ≡ lets_pass table.now.filter row.now }
{
    match &table.filter {
        Some(filter) => filter.holds(row),
        None => true,
    }
}
