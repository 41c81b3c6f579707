//! A table of a publication.

ghost use Rattle.std.specs.Prelude.{◌≡◌, IfOk, not, if◌then◌else◌};
ghost use Rattle.std.specs.List.{list_all, zip};
ghost use Rattle.publication_config.specs.Published.{differs_from, is_listed, published_whole, same_list};

use pqformat::Items;
use rowfilter::Filter;
use std::alloc::{AllocError, Global};
use tables::Table;

/// A table of a publication, with what of it is published.
#[derive(Drop)]
pub struct PublishedTable {
    pub oid: u32,
    /// Without a filter every row passes.
    pub filter: Option<Filter>,
    /// For each column of the table, in its order, whether the column list has it.
    pub listed: Items<bool>,
}

impl PublishedTable {
    /// All rows and columns of a table. `AllocError` where memory for it is refused.
    pub fn whole(alloc: Global, table: &Table) -> Result<Self, AllocError>
        ensures { IfOk result (λ t. t ≡ published_whole table.now) }
    {
        let mut listed = Vec::new(alloc);
        listed.resize(table.columns.len(), true)?;
        Ok(PublishedTable {
            oid: table.oid,
            filter: None,
            listed: Items::new(listed),
        })
    }

    pub(crate) fn copy(&self, alloc: Global) -> Result<Self, AllocError>
        ensures { IfOk result (λ t. t ≡ self.now) }
    {
        Ok(PublishedTable {
            oid: self.oid,
            filter: match &self.filter {
                Some(filter) => Some(filter.copy(alloc)?),
                None => None,
            },
            listed: Items::new(Vec::from_slice(alloc, self.listed.as_slice())?),
        })
    }

    /// Whether it is the same table with another column list.
    pub(crate) fn differs_from(&self, other: &PublishedTable) -> bool
        ensures { result ≡ differs_from other.now self.now }
    {
        self.oid == other.oid && !is_same_list(self.listed.as_slice(), other.listed.as_slice())
    }
}

/// Whether a column list has the column at this place of the table.
pub fn is_listed(listed: &[bool], place: usize) -> bool
    ensures { result ≡ is_listed listed.now place }
{
    listed.get(place).copied().unwrap_or(false)
}

fn is_same_list(listed: &[bool], others: &[bool]) -> bool
    ensures { result ≡ same_list listed.now others.now }
{
    listed.len() == others.len() && are_same_flags(listed, others)
}

fn are_same_flags(listed: &[bool], others: &[bool]) -> bool
    ensures { result ≡ list_all (λ p. if p.0 then p.1 else not p.1) (zip listed.now others.now) }
{
    listed.iter().zip(others).all(|(a, b)| a == b)
}
