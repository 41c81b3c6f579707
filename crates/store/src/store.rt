//! The rows of tables, who holds them, and how changes of them are undone.

ghost use Rattle.std.specs.Prelude.{◌≡◌, ◌==◌, ◌≤◌, ◌++◌, ◌∷◌, [], ◌&&◌, ◌||◌, ◌<◌, not, Err, IfErr, IfOk, IsTrue, OnErr, OnOk, List, length, is_some, if◌then◌else◌, ℕ};
ghost use Rattle.std.specs.Option.{option_copied};
ghost use Rattle.catalog.specs.declared.config.TheConstants.{MAX_TABLES};
ghost use Rattle.store.specs.Keeping.{AreShort, DeletesAt, IsSame, Keeps, Makes, UpdatesAt, RefusedExactly, RefusedOrMemory, journal_of, key_held, keys_fault, places_fault, row_at};
ghost use Rattle.store.specs.Emptying.{Does};
ghost use Rattle.store.specs.History.{Made, change_made, count_of, delete_fault, delete_refusal, history_after_end, history_after_rollback, insert_fault, insert_refusal, is_other, row_place, rows_after, table_place, truncate_refusal, unless, update_fault, update_refusal, Deletes, Updates};
ghost use Rattle.store.specs.Rows.{key_of, key_text};
ghost use Rattle.store.specs.Slots.{CanUndo, same_key, slot_at, undone_at};
ghost use Rattle.tables.specs.Spelling.{IsShort};
ghost use Rattle.tables.specs.Tables.{FitsRow, FitsChange};

use crate::journals::Journals;
use crate::places::key::{MAX_KEY_LENGTH, PlaceKey};
use crate::places::slots::Slots;
use crate::places::stored_place::Undo;
use crate::store_fault::StoreFault;
use catalog::Catalog;
use pqformat::Items;
use std::alloc::{AllocError, Global};
use std::marker::Model;
use tables::{Change, Row};

/// The rows of a catalogue's tables, and what live transactions changed in them. A transaction is named by its xid.
///
/// Contracts speak of the history of a store, the changes that were made and not undone (`Keeps`): each call says what
/// becomes of it, and what is refused and what stands in the tables is told of it alone. A change that a call made can be
/// written into the log: it fits the tables, its rows have at most 8,000 bytes and its body at most 16,005.
#[derive(Drop)]
pub struct Store {
    pub(crate) catalog: Catalog,
    pub(crate) slots: Slots,
    pub(crate) journals: Journals,
    pub(crate) alloc: Global,
}

impl Model for Store {
    ghost use Rattle.store.specs.Keeping.{StoreState};

    ghost Value = { StoreState };

    ghost view = { λ s. record { tables = s.catalog; slots = s.slots; journals = s.journals } };
}

impl Store {
    /// A store without rows.
    pub fn new(alloc: Global, catalog: Catalog) -> Self
        ensures tables { result.tables ≡ catalog }
        ensures keeps { Keeps result [] }
    {
        Store {
            catalog,
            slots: Slots::new(alloc),
            journals: Journals::new(alloc),
            alloc,
        }
    }

    pub fn catalog(&self) -> &Catalog
        ensures { result.now ≡ self.now.tables }
    {
        &self.catalog
    }

    /// The row with this key. The key's values stand in table order. None where there is no such row, or no such table.
    pub fn get(&self, oid: u32, key: &Row) -> Option<&Row>
        ensures { (history : List Made) → Keeps self.now history →
            option_copied result
            ≡ rows_after self.now.tables history (record { oid = oid; values = key.now }) }
    {
        match PlaceKey::of_key(oid, key) {
            Some(place) => self.slots.row(place.as_bytes()),
            None => None,
        }
    }

    /// How many changes a transaction has made and not undone, to undo later ones.
    pub fn mark(&self, top: u32) -> usize
        ensures { (history : List Made) → Keeps self.now history → result ≡ count_of top history }
    {
        self.journals.mark(top)
    }

    /// Undoes a transaction's changes after the mark, the last first. It takes no memory.
    pub fn undo_to(&mut self, top: u32, mark: usize)
        ensures tables { self.new.tables ≡ self.old.tables }
        ensures keeps { (history : List Made) → Keeps self.old history →
            Keeps self.new (history_after_rollback top mark history) }
    {
        while let Some(undos) = self.journals.pop_after(top, mark) {
            self.slots.undo(undos);
        }
    }

    /// The transaction has ended, and holds nothing. It takes no memory.
    pub fn forget(&mut self, top: u32)
        ensures tables { self.new.tables ≡ self.old.tables }
        ensures keeps { (history : List Made) → Keeps self.old history →
            Keeps self.new (history_after_end top history) }
    {
        if let Some(journal) = self.journals.remove(top) {
            self.slots.free_all(top, journal);
        }
    }

    /// Inserts a row. Refused in this order: `UnknownTable` (S1), `RowShape` (S2) where the row doesn't fit the table, `TooLarge`
    /// (S6), `KeyHeld` (S5) where another transaction holds its key or the table, `DuplicateKey` (S3), `Memory` (S11).
    pub fn insert(&mut self, top: u32, oid: u32, row: Row) -> Result<Change, StoreFault>
        ensures change { IfOk result (λ change. change ≡ Change.Insert oid row) }
        ensures fits { IfOk result (λ change. FitsChange self.old.tables change) }
        ensures short { IfOk result IsShort }
        ensures ok { OnOk result
            ((history : List Made) → Keeps self.old history →
            Keeps self.new (history ++ change_made top (Change.Insert oid row) ∷ [])) }
        ensures err { OnErr result
            ((history : List Made) → Keeps self.old history → Keeps self.new history) }
        ensures refused { (history : List Made) → Keeps self.old history →
            RefusedOrMemory (insert_refusal self.old.tables history top oid row) result }
        ensures tables { self.new.tables ≡ self.old.tables }
    {
        match self.judge_insert(top, oid, &row) {
            Ok(place) => self.insert_at(top, oid, &place, row),
            Err(fault) => Err(fault),
        }
    }

    fn insert_at(
        &mut self,
        top: u32,
        oid: u32,
        place: &PlaceKey,
        row: Row,
    ) -> Result<Change, StoreFault>
        requires { length place.now ≤ MAX_KEY_LENGTH }
        ensures change { IfOk result (λ change. change ≡ Change.Insert oid row) }
        ensures ok { OnOk result (Makes top ((place.now, Some row) ∷ []) self.old self.new) }
        ensures err { OnErr result (IsSame self.old self.new) }
        ensures memory { IfErr result (λ fault. fault ≡ StoreFault.Memory) }
    {
        let kept = row.copy(self.alloc)?;
        self.put_one(top, place, Some(kept))?;
        Ok(Change::Insert(oid, row))
    }

    /// Puts a row in the place of the one with this key, whose key it may change. Refused in this order: `UnknownTable` (S1),
    /// `RowShape` (S2) where the key or the row doesn't fit the table, `TooLarge` (S6), `KeyHeld` (S5) where another transaction
    /// holds one of the two keys or the table, `NoSuchRow` (S4), `DuplicateKey` (S3), `Memory` (S11).
    pub fn update(&mut self, top: u32, oid: u32, key: &Row, row: Row) -> Result<Change, StoreFault>
        ensures fits { IfOk result
            (λ change. (history : List Made) → Keeps self.old history →
            FitsChange self.old.tables change) }
        ensures short { IfOk result
            (λ change. (history : List Made) → Keeps self.old history → IsShort change) }
        ensures change { IfOk result
            (λ change. (history : List Made) → Keeps self.old history →
            Updates self.old.tables history (record { oid = oid; values = key.now }) row
            change) }
        ensures ok { IfOk result
            (λ change. (history : List Made) → Keeps self.old history →
            Keeps self.new (history ++ change_made top change ∷ [])) }
        ensures err { OnErr result
            ((history : List Made) → Keeps self.old history → Keeps self.new history) }
        ensures refused { (history : List Made) → Keeps self.old history →
            RefusedOrMemory
            (update_refusal self.old.tables history top (record { oid = oid; values = key.now })
            row)
            result }
        ensures tables { self.new.tables ≡ self.old.tables }
    {
        match self.judge_update(top, oid, key, &row) {
            Ok((from, to)) => self.update_at(top, oid, &from, &to, row),
            Err(fault) => Err(fault),
        }
    }

    fn update_at(
        &mut self,
        top: u32,
        oid: u32,
        from: &PlaceKey,
        to: &PlaceKey,
        row: Row,
    ) -> Result<Change, StoreFault>
        requires from { length from.now ≤ MAX_KEY_LENGTH }
        requires to { length to.now ≤ MAX_KEY_LENGTH }
        ensures change { IfOk result (λ change. UpdatesAt self.old oid from.now row change) }
        ensures ok { OnOk result
            (Makes top ((from.now, None) ∷ (to.now, Some row) ∷ []) self.old self.new) }
        ensures err { OnErr result (IsSame self.old self.new) }
        ensures memory { IfErr result
            (λ fault. IsTrue (is_some (slot_at self.old.slots from.now).row) →
            fault ≡ StoreFault.Memory) }
    {
        let old = self.old_row(from)?;
        let kept = row.copy(self.alloc)?;
        self.put_two(top, from, to, kept)?;
        Ok(Change::Update(oid, old, row))
    }

    /// Deletes the row with this key. Refused in this order: `UnknownTable` (S1), `RowShape` (S2) where the key doesn't fit the
    /// table, `KeyHeld` (S5) where another transaction holds it or the table, `NoSuchRow` (S4), `Memory` (S11).
    pub fn delete(&mut self, top: u32, oid: u32, key: &Row) -> Result<Change, StoreFault>
        ensures fits { IfOk result
            (λ change. (history : List Made) → Keeps self.old history →
            FitsChange self.old.tables change) }
        ensures short { IfOk result
            (λ change. (history : List Made) → Keeps self.old history → IsShort change) }
        ensures change { IfOk result
            (λ change. (history : List Made) → Keeps self.old history →
            Deletes self.old.tables history (record { oid = oid; values = key.now }) change) }
        ensures ok { IfOk result
            (λ change. (history : List Made) → Keeps self.old history →
            Keeps self.new (history ++ change_made top change ∷ [])) }
        ensures err { OnErr result
            ((history : List Made) → Keeps self.old history → Keeps self.new history) }
        ensures refused { (history : List Made) → Keeps self.old history →
            RefusedOrMemory
            (delete_refusal self.old.tables history top
            (record { oid = oid; values = key.now }))
            result }
        ensures tables { self.new.tables ≡ self.old.tables }
    {
        match self.judge_delete(top, oid, key) {
            Ok(place) => self.delete_at(top, oid, &place),
            Err(fault) => Err(fault),
        }
    }

    fn delete_at(&mut self, top: u32, oid: u32, place: &PlaceKey) -> Result<Change, StoreFault>
        requires { length place.now ≤ MAX_KEY_LENGTH }
        ensures change { IfOk result (λ change. DeletesAt self.old oid place.now change) }
        ensures ok { OnOk result (Makes top ((place.now, None) ∷ []) self.old self.new) }
        ensures err { OnErr result (IsSame self.old self.new) }
        ensures memory { IfErr result
            (λ fault. IsTrue (is_some (slot_at self.old.slots place.now).row) →
            fault ≡ StoreFault.Memory) }
    {
        let old = self.old_row(place)?;
        self.put_one(top, place, None)?;
        Ok(Change::Delete(oid, old))
    }

    /// Empties tables, and holds them. Refused in this order: `UnknownTable` (S1), `RowShape` (S2) where no table is named or one
    /// twice, `TooLarge` (S6) where too many are, `KeyHeld` (S5) where another transaction holds one of them or a key there,
    /// `Memory` (S11). It goes through all places of the store.
    pub fn truncate(&mut self, top: u32, oids: &[u32]) -> Result<Change, StoreFault>
        ensures change { IfOk result (λ change. change ≡ Change.Truncate oids.now) }
        ensures fits { IfOk result (λ change. FitsChange self.old.tables change) }
        ensures short { IfOk result IsShort }
        ensures ok { OnOk result
            ((history : List Made) → Keeps self.old history →
            Keeps self.new (history ++ change_made top (Change.Truncate oids.now) ∷ [])) }
        ensures err { OnErr result
            ((history : List Made) → Keeps self.old history → Keeps self.new history) }
        ensures refused { (history : List Made) → Keeps self.old history →
            RefusedOrMemory (truncate_refusal self.old.tables history top oids.now) result }
        // S6 is of no catalogue that a configuration names.
        ensures few { result ≡ Err StoreFault.TooLarge → MAX_TABLES < length self.old.tables }
        ensures tables { self.new.tables ≡ self.old.tables }
    {
        match self.judge_truncate(top, oids) {
            Ok(()) => self.empty(top, oids),
            Err(fault) => Err(fault),
        }
    }

    fn empty(&mut self, top: u32, oids: &[u32]) -> Result<Change, StoreFault>
        ensures change { IfOk result (λ change. change ≡ Change.Truncate oids.now) }
        ensures ok { OnOk result (Does top (Change.Truncate oids.now) self.old self.new) }
        ensures err { OnErr result (IsSame self.old self.new) }
        ensures memory { IfErr result (λ fault. fault ≡ StoreFault.Memory) }
    {
        let named = Vec::from_slice(self.alloc, oids)?;
        let undos = self.slots.empty(self.alloc, top, oids)?;
        self.note(top, undos)?;
        Ok(Change::Truncate(Items::new(named)))
    }

    /// A copy of the row at a place.
    fn old_row(&self, place: &PlaceKey) -> Result<Row, StoreFault>
        ensures ok { IfOk result (λ row. (slot_at self.now.slots place.now).row ≡ Some row) }
        ensures err { IfErr result
            (λ fault. IsTrue (is_some (slot_at self.now.slots place.now).row) →
            fault ≡ StoreFault.Memory) }
    {
        match self.slots.row(place.as_bytes()) {
            Some(row) => Ok(row.copy(self.alloc)?),
            None => Err(StoreFault::NoSuchRow),
        }
    }

    /// Puts a row, or none, for a transaction, and notes it. Without memory the same stands everywhere.
    fn put_one(&mut self, top: u32, place: &PlaceKey, row: Option<Row>) -> Result<(), AllocError>
        requires { length place.now ≤ MAX_KEY_LENGTH }
        ensures ok { OnOk result (Makes top ((place.now, row) ∷ []) self.old self.new) }
        ensures err { OnErr result (IsSame self.old self.new) }
    {
        let undos = self.slots.put_one(top, place.as_bytes(), row)?;
        self.note(top, undos)
    }

    /// Takes a row away and puts one, for a transaction, and notes it. Without memory the same stands everywhere.
    fn put_two(
        &mut self,
        top: u32,
        from: &PlaceKey,
        to: &PlaceKey,
        row: Row,
    ) -> Result<(), AllocError>
        requires from { length from.now ≤ MAX_KEY_LENGTH }
        requires to { length to.now ≤ MAX_KEY_LENGTH }
        ensures ok { OnOk result
            (Makes top ((from.now, None) ∷ (to.now, Some row) ∷ []) self.old self.new) }
        ensures err { OnErr result (IsSame self.old self.new) }
    {
        let undos = self
            .slots
            .put_two(top, from.as_bytes(), to.as_bytes(), row)?;
        self.note(top, undos)
    }

    /// Notes what was put, or undoes it where memory is refused (`AllocError`).
    pub(crate) fn note(&mut self, top: u32, undos: Items<Undo>) -> Result<(), AllocError>
        ensures tables { self.new.tables ≡ self.old.tables }
        ensures slots { OnOk result (self.new.slots ≡ self.old.slots) }
        ensures journals { OnOk result
            ((x : ℕ) →
            journal_of x self.new.journals
            ≡ (if top == x then journal_of x self.old.journals ++ undos ∷ []
            else journal_of x self.old.journals)) }
        ensures undone { OnErr result
            (CanUndo undos (slot_at self.old.slots) → (place : List ℕ) →
            slot_at self.new.slots place
            ≡ undone_at undos place (slot_at self.old.slots place)) }
        ensures short { OnErr result
            (CanUndo undos (slot_at self.old.slots) → AreShort self.old.slots →
            AreShort self.new.slots) }
        ensures same { OnErr result
            ((x : ℕ) → journal_of x self.new.journals ≡ journal_of x self.old.journals) }
    {
        match self.journals.push(top, undos) {
            Ok(()) => Ok(()),
            Err(undos) => {
                self.slots.undo(undos);
                Err(AllocError)
            }
        }
    }
}
