//! What live transactions changed, so that it can be undone.

ghost use Rattle.std.specs.Prelude.{List, ℕ, IfOk, ◌≡◌, ◌==◌, ◌<◌, ◌≤◌, ◌++◌, ◌∷◌, [], IfErr, MatchOption, OnErr, OnOk, length, if◌then◌else◌, nat_eq, IsSome, false};
ghost use Rattle.std.specs.Map.{lookup};
ghost use Rattle.store.specs.History.{Made};
ghost use Rattle.store.specs.Keeping.{Journals as Kept, journal_of};
ghost use Rattle.store.specs.Snapshots.{Settling};
ghost use Rattle.tables.specs.declared.table.Table.{Table};

use crate::places::slots::Slots;
use crate::places::stored_place::Undo;
use indexmap::IndexMap;
use pqformat::Items;
use std::alloc::{AllocError, Global};
use std::marker::Model;

/// The changes of a transaction, the oldest first, each with what stood at its places before.
#[derive(Drop)]
pub struct Journal {
    changes: Vec<Items<Undo>>,
}

impl Model for Journal {
    ghost use Rattle.std.specs.Prelude.{List};
    ghost use Rattle.store.specs.declared.places.stored_place.Undo.{Undo as Noted};

    ghost Value = { List (List Noted) };

    ghost view = { λ j. j.changes.items };
}

impl Journal {
    fn new(alloc: Global) -> Self
        ensures { result ≡ [] }
    {
        Journal {
            changes: Vec::new(alloc),
        }
    }

    pub fn len(&self) -> usize
        ensures { result ≡ length self.now }
    {
        self.changes.len()
    }

    /// Adds a change, or gives it back where memory is refused.
    fn push(&mut self, undos: Items<Undo>) -> Result<(), Items<Undo>>
        ensures ok { OnOk result (self.new ≡ self.old ++ undos ∷ []) }
        ensures err { IfErr result (λ back. (back ≡ undos) × (self.new ≡ self.old)) }
    {
        match self.changes.push(undos) {
            Ok(()) => Ok(()),
            Err(refused) => Err(refused.value),
        }
    }

    pub fn pop(&mut self) -> Option<Items<Undo>>
        ensures { MatchOption result ((self.old ≡ []) × (self.new ≡ []))
            (λ undos. self.old ≡ self.new ++ undos ∷ []) }
    {
        self.changes.pop()
    }

    /// Undoes all changes in slots, the last first, and stays as it is.
    fn undo_in(&self, alloc: Global, slots: &mut Slots) -> Result<(), AllocError>
        ensures { OnOk result
            ((tables : List Table) (top : ℕ) (rest : Kept) (history : List Made) →
            Settling tables slots.old ((top, self.now) ∷ rest) history →
            Settling tables slots.new ((top, []) ∷ rest) history) }
    {
        let mut left = self.changes.len();
        while left > 0 {
            left -= 1;
            slots.undo(copy_of(alloc, self.changes[left].as_slice())?);
        }
        Ok(())
    }
}

/// The journals of the live transactions, by their xids. Contracts see the xids with the journals; one that isn't there is
/// empty.
#[derive(Drop)]
pub struct Journals {
    by_top: IndexMap<u32, Journal>,
}

impl Model for Journals {
    ghost use Rattle.store.specs.Keeping.{Journals as Kept};

    ghost Value = { Kept };

    ghost view = { λ j. j.by_top.entries };
}

impl Journals {
    pub fn new(alloc: Global) -> Self
        ensures { result ≡ [] }
    {
        Journals {
            by_top: IndexMap::new(alloc),
        }
    }

    /// How many changes a transaction has made.
    pub fn mark(&self, top: u32) -> usize
        ensures { result ≡ length (journal_of top self.now) }
    {
        match self.by_top.get(&top) {
            Some(journal) => journal.len(),
            None => 0,
        }
    }

    /// Makes sure that the transaction has a journal.
    fn open(&mut self, top: u32) -> Result<(), AllocError>
        ensures journals { (x : ℕ) → journal_of x self.new ≡ journal_of x self.old }
        ensures there { OnOk result (IsSome (lookup (nat_eq top) self.new)) }
    {
        if self.by_top.contains_key(&top) {
            return Ok(());
        }
        let alloc = *self.by_top.allocator();
        self.by_top.insert(top, Journal::new(alloc))?;
        Ok(())
    }

    /// Adds a change of a transaction, or gives it back as the error where memory is refused.
    pub fn push(&mut self, top: u32, undos: Items<Undo>) -> Result<(), Items<Undo>>
        ensures ok { OnOk result
            ((x : ℕ) →
            journal_of x self.new
            ≡ (if top == x then journal_of x self.old ++ undos ∷ []
            else journal_of x self.old)) }
        ensures err { IfErr result
            (λ back. (back ≡ undos) × ((x : ℕ) → journal_of x self.new ≡ journal_of x self.old)) }
    {
        if self.open(top).is_err() {
            return Err(undos);
        }
        match self.by_top.get_mut(&top) {
            Some(journal) => journal.push(undos),
            None => Err(undos),
        }
    }

    /// Takes out the last change of a transaction, if it is after the first `mark`.
    pub fn pop_after(&mut self, top: u32, mark: usize) -> Option<Items<Undo>>
        ensures behind { MatchOption result (length (journal_of top self.old) ≤ mark)
            (λ _. mark < length (journal_of top self.old)) }
        ensures last { MatchOption result (journal_of top self.new ≡ journal_of top self.old)
            (λ undos. journal_of top self.old ≡ journal_of top self.new ++ undos ∷ []) }
        ensures others { (x : ℕ) → nat_eq top x ≡ false →
            journal_of x self.new ≡ journal_of x self.old }
    {
        if self.mark(top) <= mark {
            return None;
        }
        match self.by_top.get_mut(&top) {
            Some(journal) => journal.pop(),
            None => None,
        }
    }

    /// Undoes in slots what all live transactions changed, and stays as it is.
    pub fn undo_all(&self, alloc: Global, slots: &mut Slots) -> Result<(), AllocError>
        ensures { OnOk result
            ((tables : List Table) (history : List Made) →
            Settling tables slots.old self.now history → Settling tables slots.new [] history) }
    {
        for (_, journal) in self.by_top.iter() {
            journal.undo_in(alloc, slots)?;
        }
        Ok(())
    }

    /// Takes out the journal of a transaction.
    pub fn remove(&mut self, top: u32) -> Option<Journal>
        ensures journal { MatchOption result (journal_of top self.old ≡ [])
            (λ journal. journal ≡ journal_of top self.old) }
        ensures others { (x : ℕ) →
            journal_of x self.new ≡ (if top == x then [] else journal_of x self.old) }
    {
        self.by_top.swap_remove(&top)
    }
}

fn copy_of(alloc: Global, undos: &[Undo]) -> Result<Items<Undo>, AllocError>
    ensures { IfOk result (λ copy. copy ≡ undos.now) }
{
    let mut copies = Vec::with_capacity(alloc, undos.len())?;
    for undo in undos {
        copies.push(undo.copy(alloc)?)?;
    }
    Ok(Items::new(copies))
}
