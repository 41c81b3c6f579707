//! What subscribers ask of the publications: which there are, and of which tables.

ghost use Rattle.std.specs.Prelude.{◌≡◌, IfOk, IfSome, filter};
ghost use Rattle.std.specs.List.{AllByRecursion};
ghost use Rattle.server.specs.Answers.{IsShort, IsShortName};
ghost use Rattle.server_state.specs.Published.{is_publication, selection_told, tables_in, tables_told, told_table};

use crate::publications::refusals::of_publications;
use pgoutput::Logical;
use pqformat::{Items, Text};
use publication::{PubFault, Publications, Selection};
use server::{BackendFault, TableName};
use std::alloc::{AllocError, Global};
use std::slice;

/// The most bytes of a name of PostgreSQL's (PostgreSQL 15, 4.1.1), and of a configuration's.
pub(crate) const MOST_NAME_BYTES: usize = 63;

/// Those of the names that are publications. `AllocError` where memory for them is refused.
pub fn known_names(
    alloc: Global,
    publications: &Publications,
    names: &[Text],
) -> Result<Items<Text>, AllocError>
    ensures known { IfOk result
        (λ known. known ≡ filter (is_publication publications.now) names.now) }
    ensures short { IfOk result (λ known. AllByRecursion IsShort known) }
{
    let mut known = Vec::new(alloc);
    for name in names {
        if is_publication(publications, name) {
            known.push(name.copy(alloc)?)?;
        }
    }
    Ok(Items::new(known))
}

/// Whether a publication has this name.
fn is_publication(publications: &Publications, name: &Text) -> bool
    ensures { result ≡ is_publication publications.now name.now }
{
    if name.as_str().len() > MOST_NAME_BYTES {
        return false;
    }
    !matches!(
        publications.judge(slice::from_ref(name)),
        Err(PubFault::Unknown)
    )
}

/// The tables of the publications of these names, each once. `ListConflict` (P2) where two of those have different column lists for
/// one of them, as PostgreSQL refuses them too (PostgreSQL 15, 31.4). Or `Memory`.
pub fn tables_of(
    alloc: Global,
    publications: &Publications,
    names: &[Text],
) -> Result<Items<TableName>, BackendFault>
    ensures told { IfOk result (λ tables. tables ≡ tables_told publications.now names.now) }
    ensures short { IfOk result (λ tables. AllByRecursion IsShortName tables) }
{
    let selection = selection_of(alloc, publications, names)?;
    match tables_in(alloc, &selection) {
        Ok(tables) => Ok(tables),
        Err(_) => Err(BackendFault::Memory),
    }
}

/// What the publications of these names select together.
pub(crate) fn selection_of(
    alloc: Global,
    publications: &Publications,
    names: &[Text],
) -> Result<Selection, BackendFault>
    ensures { IfOk result (λ selection. selection ≡ selection_told publications.now names.now) }
{
    let Ok(known) = known_names(alloc, publications, names) else {
        return Err(BackendFault::Memory);
    };
    publications
        .select(known.as_slice())
        .map_err(of_publications)
}

/// The tables of a selection.
fn tables_in(alloc: Global, selection: &Selection) -> Result<Items<TableName>, AllocError>
    ensures told { IfOk result (λ tables. tables ≡ tables_in selection.now) }
    ensures short { IfOk result (λ tables. AllByRecursion IsShortName tables) }
{
    let mut tables = Vec::new(alloc);
    for oid in selection.oids() {
        if let Some(table) = table_told(selection, *oid)? {
            tables.push(table)?;
        }
    }
    Ok(Items::new(tables))
}

/// The name of the table of this OID, as its Relation has it. A name that no catalogue has, for which a row has no room, is refused
/// as for want of memory.
fn table_told(selection: &Selection, oid: u32) -> Result<Option<TableName>, AllocError>
    ensures told { IfOk result (λ table. table ≡ told_table selection.now oid) }
    ensures short { IfOk result (λ table. IfSome table IsShortName) }
{
    let Some(Logical::Relation(relation)) = selection.relation(oid)? else {
        return Ok(None);
    };
    let (schema, name) = (relation.namespace, relation.name);
    if schema.as_str().len() > MOST_NAME_BYTES || name.as_str().len() > MOST_NAME_BYTES {
        return Err(AllocError);
    }
    Ok(Some(TableName { schema, name }))
}
