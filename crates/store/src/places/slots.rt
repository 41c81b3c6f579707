//! What stands at each place.

ghost use Rattle.std.specs.Prelude.{List, ℕ, ◌≡◌, ◌≤◌, ◌++◌, ◌∷◌, [], ◌&&◌, IfOk, OnErr, OnOk, false, is_some, length, map, not, slice_range, true, if◌then◌else◌};
ghost use Rattle.std.specs.Option.{option_copied};
ghost use Rattle.store.specs.Emptying.{AreAtPlace, filled_within, is_other_within};
ghost use Rattle.store.specs.History.{is_top};
ghost use Rattle.store.specs.Keeping.{AreShort, SameSlots, is_in_journal, is_noted, noted_of, put_all, slot_after_end};
ghost use Rattle.store.specs.Snapshots.{AreOnce, standing_of, standing_within};
ghost use Rattle.store.specs.Slots.{AreUsed, CanUndo, is_used, same_key, slot_at, slots_with, undone_at, vacant};

use crate::journals::Journal;
use crate::places::key::{MAX_KEY_LENGTH, is_within};
use crate::places::stored_place::{StoredPlace, Undo};
use indexmap::IndexMap;
use pqformat::Items;
use std::alloc::{AllocError, Global};
use std::marker::Model;
use tables::Row;

/// The slots of a store, by the texts of their places. A place that becomes vacant is let go of. Contracts see the texts
/// with their slots.
#[derive(Drop)]
pub struct Slots {
    by_place: IndexMap<Vec<u8>, StoredPlace>,
}

impl Model for Slots {
    ghost use Rattle.store.specs.Slots.{AreUsed, Entries, entries_of};

    ghost Value = { Entries };

    ghost view = { λ s. entries_of s.by_place.entries };

    ghost invariant = { λ s. AreUsed (entries_of s.by_place.entries) };
}

impl Slots {
    pub fn new(alloc: Global) -> Self
        ensures { result ≡ [] }
    {
        Slots {
            by_place: IndexMap::new(alloc),
        }
    }

    /// How many places there are. None of them has two slots.
    pub fn len(&self) -> usize
        ensures len { result ≡ length self.now }
        ensures once { AreOnce self.now }
    {
        self.by_place.len()
    }

    pub fn copy(&self, alloc: Global) -> Result<Self, AllocError>
        ensures { IfOk result (λ copy. copy ≡ self.now) }
    {
        let mut by_place = IndexMap::new(alloc);
        for (place, slot) in self.by_place.iter() {
            let name = Vec::from_slice(alloc, place.as_slice())?;
            by_place.insert(name, slot.copy(alloc)?)?;
        }
        Ok(Slots { by_place })
    }

    /// Copies of the rows of a table that stand from one place on up to another.
    pub fn rows_between(
        &self,
        alloc: Global,
        oid: u32,
        start: usize,
        end: usize,
    ) -> Result<Vec<Row>, AllocError>
        requires { (start ≤ end) × (end ≤ length self.now) }
        ensures { IfOk result
            (λ rows. rows.items
            ≡ map (λ s. s.1)
            (standing_within oid (standing_of (slice_range self.now start end)))) }
    {
        let mut rows = Vec::new(alloc);
        let Some(part) = self.by_place.get_range(start..end) else {
            return Ok(rows);
        };
        for (place, slot) in part.iter() {
            if !is_within(&[oid], place.as_slice()) {
                continue;
            }
            if let Some(row) = &slot.row {
                rows.push(row.copy(alloc)?)?;
            }
        }
        Ok(rows)
    }

    /// The row at a place.
    pub fn row(&self, place: &[u8]) -> Option<&Row>
        ensures { option_copied result ≡ (slot_at self.now place.now).row }
    {
        match self.by_place.get(place) {
            Some(slot) => slot.row.as_ref(),
            None => None,
        }
    }

    /// The transaction that holds a place.
    pub fn owner(&self, place: &[u8]) -> Option<u32>
        ensures { result ≡ (slot_at self.now place.now).owner }
    {
        match self.by_place.get(place) {
            Some(slot) => slot.owner,
            None => None,
        }
    }

    /// Whether another transaction holds one of these tables, or a key of one. It goes through all places.
    pub fn is_held_within(&self, top: u32, oids: &[u32]) -> bool
        ensures held { result ≡ is_other_within top oids.now self.now }
        ensures places { AreAtPlace self.now }
    {
        for (place, slot) in self.by_place.iter() {
            if slot.is_others(top) && is_within(oids, place.as_slice()) {
                return true;
            }
        }
        false
    }

    /// The places of these tables at which a row stands. It goes through all places. `AllocError` where memory is refused.
    pub fn rows_within(&self, oids: &[u32]) -> Result<Items<Items<u8>>, AllocError>
        ensures rows { IfOk result (λ places. places ≡ filled_within oids.now self.now) }
        ensures places { OnOk result (AreAtPlace self.now) }
    {
        let alloc = *self.by_place.allocator();
        let mut places = Vec::new(alloc);
        for (place, slot) in self.by_place.iter() {
            if slot.row.is_some() && is_within(oids, place.as_slice()) {
                places.push(Items::new(Vec::from_slice(alloc, place.as_slice())?))?;
            }
        }
        Ok(Items::new(places))
    }

    /// Puts a slot at a place, and answers what stood there. Without memory nothing changes.
    fn swap(&mut self, place: Vec<u8>, slot: StoredPlace) -> Result<StoredPlace, AllocError>
        requires { is_used slot ≡ true }
        ensures ok { OnOk result (self.new ≡ slots_with place.items slot self.old) }
        ensures before { IfOk result (λ before. before ≡ slot_at self.old place.items) }
        ensures err { OnErr result (self.new ≡ self.old) }
    {
        match self.by_place.insert(place, slot) {
            Ok(before) => Ok(before.unwrap_or(StoredPlace::vacant())),
            Err(_) => Err(AllocError),
        }
    }

    /// Undoes a change, the last of its places first. It takes no memory.
    pub fn undo(&mut self, undos: Items<Undo>)
        ensures slots { CanUndo undos (slot_at self.old) → (place : List ℕ) →
            slot_at self.new place ≡ undone_at undos place (slot_at self.old place) }
        ensures short { CanUndo undos (slot_at self.old) → AreShort self.old → AreShort self.new }
    {
        let mut undos = undos.into_vec();
        while let Some(undo) = undos.pop() {
            self.put_back(undo);
        }
    }

    fn put_back(&mut self, undo: Undo)
        ensures slots { is_used (slot_at self.old undo.key) ≡ true → (place : List ℕ) →
            slot_at self.new place
            ≡ (if same_key place undo.key then undo.before else slot_at self.old place) }
        ensures short { is_used (slot_at self.old undo.key) ≡ true → AreShort self.old →
            AreShort self.new }
    {
        let Undo { key, before } = undo;
        if !before.is_used() {
            self.let_go(key.as_slice());
            return;
        }
        match self.by_place.insert(key.into_vec(), before) {
            Ok(_) => {}
            Err(_) => {}
        }
    }

    /// Nothing stands at a place any longer.
    fn let_go(&mut self, place: &[u8])
        ensures slots { (other : List ℕ) →
            slot_at self.new other
            ≡ (if same_key other place.now then vacant else slot_at self.old other) }
        ensures short { AreShort self.old → AreShort self.new }
    {
        self.by_place.swap_remove(place);
    }

    /// Puts a row, or none, at a place for a transaction, and notes after the others what stood there. `AllocError` where memory is
    /// refused: then nothing changes.
    pub fn note(
        &mut self,
        undos: &mut Vec<Undo>,
        top: u32,
        place: &[u8],
        row: Option<Row>,
    ) -> Result<(), AllocError>
        ensures ok { OnOk result
            (self.new ≡ slots_with place.now (record { row = row; owner = Some top }) self.old) }
        ensures noted { OnOk result
            (undos.new.items
            ≡ undos.old.items ++ record { key = place.now; before = slot_at self.old place.now }
            ∷ []) }
        ensures err { OnErr result (self.new ≡ self.old) }
        ensures err_notes { OnErr result (undos.new.items ≡ undos.old.items) }
    {
        let alloc = *self.by_place.allocator();
        let name = Vec::from_slice(alloc, place)?;
        let key = Items::new(Vec::from_slice(alloc, place)?);
        undos.reserve(1)?;
        let owner = Some(top);
        let before = self.swap(name, StoredPlace { row, owner })?;
        undos.push_reserved(Undo { key, before });
        Ok(())
    }

    /// Puts a row, or none, at a place for a transaction, and answers what stood there. `AllocError` where memory is refused: then
    /// nothing changes.
    pub fn put_one(
        &mut self,
        top: u32,
        place: &[u8],
        row: Option<Row>,
    ) -> Result<Items<Undo>, AllocError>
        ensures ok { OnOk result (self.new ≡ put_all (Some top) ((place.now, row) ∷ []) self.old) }
        ensures noted { IfOk result
            (λ undos. undos ≡ noted_of (Some top) ((place.now, row) ∷ []) self.old) }
        ensures err { OnErr result (SameSlots self.old self.new) }
    {
        let mut undos = Vec::with_capacity(*self.by_place.allocator(), 1)?;
        self.note(&mut undos, top, place, row)?;
        Ok(Items::new(undos))
    }

    /// Takes the row at a place away and puts one at another, for a transaction, and answers what stood there. `AllocError` where
    /// memory is refused: then nothing changes.
    pub fn put_two(
        &mut self,
        top: u32,
        from: &[u8],
        to: &[u8],
        row: Row,
    ) -> Result<Items<Undo>, AllocError>
        requires { length from.now ≤ MAX_KEY_LENGTH }
        ensures ok { OnOk result
            (self.new ≡ put_all (Some top) ((from.now, None) ∷ (to.now, Some row) ∷ []) self.old) }
        ensures noted { IfOk result
            (λ undos. undos
            ≡ noted_of (Some top) ((from.now, None) ∷ (to.now, Some row) ∷ []) self.old) }
        ensures err { OnErr result (SameSlots self.old self.new) }
    {
        let mut undos = Vec::with_capacity(*self.by_place.allocator(), 2)?;
        self.note(&mut undos, top, from, None)?;
        match self.note(&mut undos, top, to, Some(row)) {
            Ok(()) => Ok(Items::new(undos)),
            Err(refused) => {
                self.undo(Items::new(undos));
                Err(refused)
            }
        }
    }

    /// The places of all changes in a journal are no longer the transaction's. It takes no memory.
    pub fn free_all(&mut self, top: u32, journal: Journal)
        ensures slots { (place : List ℕ) →
            slot_at self.new place
            ≡ (if is_in_journal place journal then slot_after_end top (slot_at self.old place)
            else slot_at self.old place) }
        ensures short { AreShort self.old → AreShort self.new }
    {
        let mut journal = journal;
        while let Some(undos) = journal.pop() {
            self.free(top, undos);
        }
    }

    /// The places of a change are no longer the transaction's. It takes no memory.
    pub fn free(&mut self, top: u32, undos: Items<Undo>)
        ensures slots { (place : List ℕ) →
            slot_at self.new place
            ≡ (if is_noted place undos then slot_after_end top (slot_at self.old place)
            else slot_at self.old place) }
        ensures short { AreShort self.old → AreShort self.new }
    {
        let mut undos = undos.into_vec();
        while let Some(undo) = undos.pop() {
            self.free_place(top, undo.key.as_slice());
        }
    }

    fn free_place(&mut self, top: u32, place: &[u8])
        ensures slots { (other : List ℕ) →
            slot_at self.new other
            ≡ (if same_key other place.now then slot_after_end top (slot_at self.old other)
            else slot_at self.old other) }
        ensures short { AreShort self.old → AreShort self.new }
    {
        if self.is_only_held(top, place) {
            self.let_go(place);
        } else {
            self.release(top, place);
        }
    }

    /// Whether a transaction holds a place at which no row stands.
    fn is_only_held(&self, top: u32, place: &[u8]) -> bool
        ensures { result
            ≡ (is_top top (slot_at self.now place.now).owner
            && not (is_some (slot_at self.now place.now).row)) }
    {
        self.owner(place) == Some(top) && self.row(place).is_none()
    }

    /// A place at which something else stands is no longer the transaction's.
    fn release(&mut self, top: u32, place: &[u8])
        requires { (is_top top (slot_at self.old place.now).owner
            && not (is_some (slot_at self.old place.now).row))
            ≡ false }
        ensures slots { (other : List ℕ) →
            slot_at self.new other
            ≡ (if same_key other place.now then slot_after_end top (slot_at self.old other)
            else slot_at self.old other) }
        ensures short { AreShort self.old → AreShort self.new }
    {
        if let Some(slot) = self.by_place.get_mut(place) {
            slot.release(top);
        }
    }
}
