//! Whether subscribers can find the rows of a published table by what is sent of them.

ghost use Rattle.std.specs.Prelude.{◌≡◌, option_copied};
ghost use Rattle.publication_config.specs.Config.{Reads, filter_leaves_identity, identity_fault, judged_table, lacks_identity, leaves_identity};

use crate::document::config_fault::{ConfigRefusal, TablePlace, UnreadPublication};
use crate::identity::is_in_identity;
use crate::operations::Operations;
use crate::published_table::{PublishedTable, is_listed};
use rowfilter::Filter;
use tables::{Identity, Table};

/// The table, if what is published of it goes with its identity. The flag says that it has a column list.
#[tactic(auto, unfolding(crate::specs::Config::judged_table))]
pub(crate) fn judged(
    place: TablePlace,
    operations: Operations,
    table: &Table,
    has_list: bool,
    published: PublishedTable,
) -> Result<PublishedTable, UnreadPublication>
    ensures { Reads result (judged_table place operations table.now has_list published) }
{
    match identity_fault(place, operations, table, has_list, &published) {
        Some(refusal) => Err(UnreadPublication::Refused(refusal)),
        None => Ok(published),
    }
}

fn identity_fault(
    place: TablePlace,
    operations: Operations,
    table: &Table,
    has_list: bool,
    published: &PublishedTable,
) -> Option<ConfigRefusal>
    ensures { result ≡ identity_fault place operations table.now has_list published.now }
{
    if !(operations.update || operations.delete) {
        return None;
    }
    if table.identity == Identity::Nothing {
        return Some(ConfigRefusal::NoIdentity(place));
    }
    if has_list
        && (table.identity == Identity::Full
            || lacks_identity(table, published.listed.as_slice()))
    {
        return Some(ConfigRefusal::ListWithoutIdentity(place));
    }
    if filter_leaves_identity(table, published.filter.as_ref()) {
        return Some(ConfigRefusal::FilterOutsideIdentity(place));
    }
    None
}

/// Whether a column of the identity is not in the list.
fn lacks_identity(table: &Table, listed: &[bool]) -> bool
    ensures { result ≡ lacks_identity table.now listed.now }
{
    for (place, column) in table.columns.as_slice().iter().enumerate() {
        if is_in_identity(table.identity, column.is_key) && !is_listed(listed, place) {
            return true;
        }
    }
    false
}

fn filter_leaves_identity(table: &Table, filter: Option<&Filter>) -> bool
    ensures { result ≡ filter_leaves_identity table.now (option_copied filter.entry) }
{
    match filter {
        Some(filter) => leaves_identity(table, filter),
        None => false,
    }
}

/// Whether the filter names a column outside the identity.
fn leaves_identity(table: &Table, filter: &Filter) -> bool
    ensures { result ≡ leaves_identity table.now filter.now }
{
    for (place, column) in table.columns.as_slice().iter().enumerate() {
        if !is_in_identity(table.identity, column.is_key) && filter.names(place) {
            return true;
        }
    }
    false
}
