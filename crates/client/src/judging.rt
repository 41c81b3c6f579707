//! Whether a change fits the tables that were told.

ghost use Rattle.std.specs.Prelude.{◌≡◌};
ghost use Rattle.pgoutput.specs.declared.logical.Logical.TheVariants as Logical;
ghost use Rattle.client.specs.Subscriber.{are_told, columns_of, fits, fits_old, judgement_of_change, judgement_of_row};
ghost use Rattle.pgoutput.specs.OldTuple.{cells_of};

use crate::fault::ClientFault;
use indexmap::IndexMap;
use pgoutput::{Cell, Logical, OldTuple, Update};
use pqformat::Items;

/// How many columns each table has, by its OID.
pub(crate) type Tables = IndexMap<u32, usize>;

/// The change names tables that were told, and its tuples have as many cells as those have columns.
///
/// `UnknownRelation` (K3) at a table that wasn't told, `Order` (K2) at a tuple of another length.
pub(crate) fn judge(tables: &Tables, message: &Logical) -> Result<(), ClientFault>
    ensures { result ≡ judgement_of_change tables.now.entries message.now }
{
    match message {
        Logical::Insert(message) => judge_row(tables, message.oid, &message.new),
        Logical::Update(message) => judge_update(tables, message),
        Logical::Delete(message) => judge_row(tables, message.oid, cells_in(&message.old)),
        Logical::Truncate(message) => judge_tables(tables, message.oids.as_slice()),
        Logical::Begin(_) | Logical::Commit(_) | Logical::Relation(_) | Logical::Message(_) => {
            Ok(())
        }
    }
}

fn judge_row(tables: &Tables, oid: u32, cells: &Items<Cell>) -> Result<(), ClientFault>
    ensures { result ≡ judgement_of_row tables.now.entries oid cells.now }
{
    judge_cells(columns_in(tables, oid)?, cells)
}

fn judge_update(tables: &Tables, message: &Update) -> Result<(), ClientFault>
    ensures { result ≡ judgement_of_change tables.now.entries (Logical.Update message.now) }
{
    let columns = columns_in(tables, message.oid)?;
    judge_old(columns, &message.old)?;
    judge_cells(columns, &message.new)
}

fn columns_in(tables: &Tables, oid: u32) -> Result<usize, ClientFault>
    ensures { result ≡ columns_of tables.now.entries oid }
{
    tables
        .get(&oid)
        .copied()
        .ok_or(ClientFault::UnknownRelation)
}

fn judge_cells(columns: usize, cells: &Items<Cell>) -> Result<(), ClientFault>
    ensures { result ≡ fits columns cells.now }
{
    if cells.len() == columns {
        Ok(())
    } else {
        Err(ClientFault::Order)
    }
}

fn judge_old(columns: usize, row: &Option<OldTuple>) -> Result<(), ClientFault>
    ensures { result ≡ fits_old columns row.now }
{
    match row {
        Some(old) => judge_cells(columns, cells_in(old)),
        None => Ok(()),
    }
}

fn cells_in(old: &OldTuple) -> &Items<Cell>
    ensures { result.now ≡ cells_of old.now }
{
    match old {
        OldTuple::Key(cells) | OldTuple::Full(cells) => cells,
    }
}

fn judge_tables(tables: &Tables, oids: &[u32]) -> Result<(), ClientFault>
    ensures { result ≡ are_told tables.now.entries oids.now }
{
    for oid in oids {
        columns_in(tables, *oid)?;
    }
    Ok(())
}
