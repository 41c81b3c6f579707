//! What stands at a place of a store, and what stood there before a change.

ghost use Rattle.std.specs.Prelude.{◌≡◌, IfOk};
ghost use Rattle.store.specs.History.{is_other};
ghost use Rattle.store.specs.Keeping.{slot_after_end};
ghost use Rattle.store.specs.Slots.{is_used, vacant};

use pqformat::Items;
use std::alloc::{AllocError, Global};
use tables::Row;

/// What stands at a place: the row, if there is one, and the live transaction that holds the place, if there is one.
#[derive(Drop)]
pub struct StoredPlace {
    pub row: Option<Row>,
    pub owner: Option<u32>,
}

/// A place that was changed, and what stood there before.
#[derive(Drop)]
pub struct Undo {
    pub key: Items<u8>,
    pub before: StoredPlace,
}

impl StoredPlace {
    /// No row, and nobody's.
    pub fn vacant() -> Self
        ensures { result ≡ vacant }
    {
        StoredPlace {
            row: None,
            owner: None,
        }
    }

    pub fn copy(&self, alloc: Global) -> Result<Self, AllocError>
        ensures { IfOk result (λ copy. copy ≡ self.now) }
    {
        let row = match &self.row {
            Some(row) => Some(row.copy(alloc)?),
            None => None,
        };
        Ok(StoredPlace {
            row,
            owner: self.owner,
        })
    }

    /// Whether a transaction holds it or a row stands there.
    pub fn is_used(&self) -> bool
        ensures { result ≡ is_used self.now }
    {
        self.owner.is_some() || self.row.is_some()
    }

    /// Whether another transaction holds it.
    pub fn is_others(&self, top: u32) -> bool
        ensures { result ≡ is_other top self.now.owner }
    {
        match self.owner {
            Some(owner) => owner != top,
            None => false,
        }
    }

    /// The transaction holds it no longer, if it did.
    pub fn release(&mut self, top: u32)
        ensures { self.new ≡ slot_after_end top self.old }
    {
        if self.owner == Some(top) {
            self.owner = None;
        }
    }
}

impl Undo {
    pub fn copy(&self, alloc: Global) -> Result<Self, AllocError>
        ensures { IfOk result (λ copy. copy ≡ self.now) }
    {
        let key = Items::new(Vec::from_slice(alloc, self.key.as_slice())?);
        let before = self.before.copy(alloc)?;
        Ok(Undo { key, before })
    }
}
