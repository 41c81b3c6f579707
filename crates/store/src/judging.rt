//! Which changes a store refuses, and the places of those that it does not.

ghost use Rattle.std.specs.Prelude.{◌≡◌, ◌<◌, ◌&&◌, ◌||◌, not, Err, IfOk, List, OnOk, is_some, length, if◌then◌else◌};
ghost use Rattle.catalog.specs.declared.config.TheConstants.{MAX_TABLES};
ghost use Rattle.std.specs.List.{list_all};
ghost use Rattle.store.specs.Keeping.{AreShort, Keeps, RefusedExactly, key_held, keys_fault, places_fault, row_at};
ghost use Rattle.store.specs.History.{Made, delete_fault, insert_fault, is_other, row_place, table_place, truncate_refusal, unless, update_fault};
ghost use Rattle.store.specs.Rows.{key_of, key_text};
ghost use Rattle.store.specs.Slots.{same_key, slot_at};
ghost use Rattle.tables.specs.Tables.{FitsRow, FitsChange, table_of};

use crate::places::key::PlaceKey;
use crate::store::Store;
use crate::store_fault::StoreFault;
use tables::{Change, MAX_TRUNCATED, Row, repeats};

impl Store {
    /// The place of a row that may be inserted. Refused as `Store::insert`, but for `Memory`.
    pub(crate) fn judge_insert(&self, top: u32, oid: u32, row: &Row) -> Result<PlaceKey, StoreFault>
        ensures refused { RefusedExactly
            (insert_fault self.now.tables oid row.now
            (key_held self.now top (key_of self.now.tables oid row.now))
            (is_some (row_at self.now (key_of self.now.tables oid row.now))))
            result }
        ensures place { IfOk result (λ place. place ≡ row_place self.now.tables oid row.now) }
        ensures fits { OnOk result (FitsRow self.now.tables oid row.now) }
    {
        let table = self.catalog.table(oid).ok_or(StoreFault::UnknownTable)?;
        if !table.takes(row) {
            return Err(StoreFault::RowShape);
        }
        if row.coded_len().is_none() {
            return Err(StoreFault::TooLarge);
        }
        let place = PlaceKey::of_row(oid, table.columns.as_slice(), row);
        if self.is_held(top, oid, &place) {
            return Err(StoreFault::KeyHeld);
        }
        if self.slots.row(place.as_bytes()).is_some() {
            return Err(StoreFault::DuplicateKey);
        }
        Ok(place)
    }

    /// The places of a row that may be updated, and of the one that comes for it. Refused as `Store::update`, but for `Memory`.
    pub(crate) fn judge_update(
        &self,
        top: u32,
        oid: u32,
        key: &Row,
        row: &Row,
    ) -> Result<(PlaceKey, PlaceKey), StoreFault>
        ensures refused { AreShort self.now.slots →
            RefusedExactly
            (update_fault self.now.tables (record { oid = oid; values = key.now }) row.now
            (key_held self.now top (record { oid = oid; values = key.now })
            || key_held self.now top (key_of self.now.tables oid row.now))
            (is_some (row_at self.now (record { oid = oid; values = key.now })))
            (not
            (same_key (key_text (record { oid = oid; values = key.now }))
            (row_place self.now.tables oid row.now))
            && is_some (row_at self.now (key_of self.now.tables oid row.now))))
            result }
        ensures places { IfOk result
            (λ places. (places.0 ≡ key_text (record { oid = oid; values = key.now }))
            × (places.1 ≡ row_place self.now.tables oid row.now)) }
        ensures fits { OnOk result (FitsRow self.now.tables oid row.now) }
    {
        match self.catalog.table(oid) {
            Some(table) => {
                if !table.takes_key(key) {
                    return Err(StoreFault::RowShape);
                }
                if !table.takes(row) {
                    return Err(StoreFault::RowShape);
                }
                if row.coded_len().is_none() {
                    return Err(StoreFault::TooLarge);
                }
                let to = PlaceKey::of_row(oid, table.columns.as_slice(), row);
                self.judge_keys(top, oid, key, to)
            }
            None => Err(StoreFault::UnknownTable),
        }
    }

    /// The places of a row's key, and of the one that it gets, neither of which another transaction holds.
    fn judge_keys(
        &self,
        top: u32,
        oid: u32,
        key: &Row,
        to: PlaceKey,
    ) -> Result<(PlaceKey, PlaceKey), StoreFault>
        ensures refused { AreShort self.now.slots →
            RefusedExactly (keys_fault self.now top (record { oid = oid; values = key.now }) to)
            result }
        ensures places { IfOk result
            (λ places. (places.0 ≡ key_text (record { oid = oid; values = key.now }))
            × (places.1 ≡ to)) }
    {
        let to_is_held = self.is_held(top, oid, &to);
        match PlaceKey::of_key(oid, key) {
            Some(from) => {
                if self.is_held(top, oid, &from) || to_is_held {
                    return Err(StoreFault::KeyHeld);
                }
                self.judge_places(from, to)
            }
            None => {
                if to_is_held {
                    return Err(StoreFault::KeyHeld);
                }
                Err(StoreFault::NoSuchRow)
            }
        }
    }

    /// The places of a row that is there, and of one that is not, unless it is the same.
    fn judge_places(&self, from: PlaceKey, to: PlaceKey) -> Result<(PlaceKey, PlaceKey), StoreFault>
        ensures refused { RefusedExactly (places_fault self.now from to) result }
        ensures places { IfOk result (λ places. (places.0 ≡ from) × (places.1 ≡ to)) }
    {
        if self.slots.row(from.as_bytes()).is_none() {
            return Err(StoreFault::NoSuchRow);
        }
        if from.as_bytes() != to.as_bytes() && self.slots.row(to.as_bytes()).is_some() {
            return Err(StoreFault::DuplicateKey);
        }
        Ok((from, to))
    }

    /// The place of a row that may be deleted. Refused as `Store::delete`, but for `Memory`.
    pub(crate) fn judge_delete(&self, top: u32, oid: u32, key: &Row) -> Result<PlaceKey, StoreFault>
        ensures refused { AreShort self.now.slots →
            RefusedExactly
            (delete_fault self.now.tables (record { oid = oid; values = key.now })
            (key_held self.now top (record { oid = oid; values = key.now }))
            (is_some (row_at self.now (record { oid = oid; values = key.now }))))
            result }
        ensures place { IfOk result
            (λ place. place ≡ key_text (record { oid = oid; values = key.now })) }
    {
        match self.catalog.table(oid) {
            Some(table) => {
                if !table.takes_key(key) {
                    return Err(StoreFault::RowShape);
                }
                self.judge_key(top, oid, key)
            }
            None => Err(StoreFault::UnknownTable),
        }
    }

    /// Whether tables may be emptied. Refused as `Store::truncate`, but for `Memory`.
    pub(crate) fn judge_truncate(&self, top: u32, oids: &[u32]) -> Result<(), StoreFault>
        ensures refused { (history : List Made) → Keeps self.now history →
            RefusedExactly (truncate_refusal self.now.tables history top oids.now) result }
        ensures fits { OnOk result (FitsChange self.now.tables (Change.Truncate oids.now)) }
        ensures few { result ≡ Err StoreFault.TooLarge → MAX_TABLES < length self.now.tables }
    {
        if !self.has_tables(oids) {
            return Err(StoreFault::UnknownTable);
        }
        if oids.is_empty() || repeats(oids) {
            return Err(StoreFault::RowShape);
        }
        if oids.len() > MAX_TRUNCATED {
            return Err(StoreFault::TooLarge);
        }
        if self.slots.is_held_within(top, oids) {
            return Err(StoreFault::KeyHeld);
        }
        Ok(())
    }

    fn has_tables(&self, oids: &[u32]) -> bool
        ensures { result ≡ list_all (λ oid. is_some (table_of oid self.now.tables)) oids.now }
    {
        oids.iter().all(|oid| self.catalog.table(*oid).is_some())
    }

    /// The place of a key at which a row stands that no other transaction holds.
    fn judge_key(&self, top: u32, oid: u32, key: &Row) -> Result<PlaceKey, StoreFault>
        ensures refused { AreShort self.now.slots →
            RefusedExactly
            (unless (key_held self.now top (record { oid = oid; values = key.now }))
            StoreFault.KeyHeld
            (unless
            (not (is_some (row_at self.now (record { oid = oid; values = key.now }))))
            StoreFault.NoSuchRow None))
            result }
        ensures place { IfOk result
            (λ place. place ≡ key_text (record { oid = oid; values = key.now })) }
    {
        match PlaceKey::of_key(oid, key) {
            Some(place) => {
                if self.is_held(top, oid, &place) {
                    return Err(StoreFault::KeyHeld);
                }
                if self.slots.row(place.as_bytes()).is_none() {
                    return Err(StoreFault::NoSuchRow);
                }
                Ok(place)
            }
            None => Err(self.judge_long(top, oid)),
        }
    }

    /// Why there is nothing at a key that is longer than that of any row.
    fn judge_long(&self, top: u32, oid: u32) -> StoreFault
        ensures { result
            ≡ (if is_other top (slot_at self.now.slots (table_place oid)).owner
            then StoreFault.KeyHeld else StoreFault.NoSuchRow) }
    {
        if self.is_others(top, &PlaceKey::of_table(oid)) {
            StoreFault::KeyHeld
        } else {
            StoreFault::NoSuchRow
        }
    }

    /// Whether another transaction holds a place, or its table.
    fn is_held(&self, top: u32, oid: u32, place: &PlaceKey) -> bool
        ensures { result
            ≡ (is_other top (slot_at self.now.slots (table_place oid)).owner
            || is_other top (slot_at self.now.slots place.now).owner) }
    {
        let table = PlaceKey::of_table(oid);
        self.is_others(top, &table) || self.is_others(top, place)
    }

    fn is_others(&self, top: u32, place: &PlaceKey) -> bool
        ensures { result ≡ is_other top (slot_at self.now.slots place.now).owner }
    {
        match self.slots.owner(place.as_bytes()) {
            Some(owner) => owner != top,
            None => false,
        }
    }
}
