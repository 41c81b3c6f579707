//! How whole tables are emptied.

ghost use Rattle.std.specs.Prelude.{List, ℕ, ◌≡◌, IfOk, OnErr, OnOk, Some};
ghost use Rattle.std.specs.List.{AllByRecursion};
ghost use Rattle.store.specs.Emptying.{AreNoted, IsOf, emptied_at, taken_at};
ghost use Rattle.store.specs.Keeping.{SameSlots, all_emptied, put_at};
ghost use Rattle.store.specs.Slots.{Entries, slot_at};

use crate::places::key::PlaceKey;
use crate::places::slots::Slots;
use crate::places::stored_place::Undo;
use pqformat::Items;
use std::alloc::{AllocError, Global};

impl Slots {
    /// Takes the rows of tables away and holds the tables for a transaction, and answers what stood there. `AllocError` where
    /// memory is refused: then the same stands at each place.
    pub fn empty(
        &mut self,
        alloc: Global,
        top: u32,
        oids: &[u32],
    ) -> Result<Items<Undo>, AllocError>
        ensures ok { OnOk result
            ((place : List ℕ) →
            slot_at self.new place ≡ emptied_at top oids.now place (slot_at self.old place)) }
        ensures noted { IfOk result (λ undos. AreNoted oids.now self.old self.new undos) }
        ensures err { OnErr result (SameSlots self.old self.new) }
    {
        let rows = self.rows_within(oids)?;
        let mut undos = Vec::new(alloc);
        match self.empty_noting(&mut undos, top, oids, rows.as_slice()) {
            Ok(()) => Ok(Items::new(undos)),
            Err(refused) => {
                self.undo(Items::new(undos));
                Err(refused)
            }
        }
    }

    fn empty_noting(
        &mut self,
        undos: &mut Vec<Undo>,
        top: u32,
        oids: &[u32],
        rows: &[Items<u8>],
    ) -> Result<(), AllocError>
        ensures ok { OnOk result
            ((place : List ℕ) →
            slot_at self.new place
            ≡ put_at (Some top) (all_emptied oids.now) place
            (taken_at top rows.now place (slot_at self.old place))) }
        ensures noted { (start : Entries) → AllByRecursion (IsOf oids.now start) rows.now →
            AreNoted oids.now start self.old undos.old.items →
            AreNoted oids.now start self.new undos.new.items }
    {
        self.take_rows(undos, top, rows)?;
        self.hold_tables(undos, top, oids)
    }

    /// Takes the rows at these places away, and holds the places for a transaction.
    fn take_rows(
        &mut self,
        undos: &mut Vec<Undo>,
        top: u32,
        rows: &[Items<u8>],
    ) -> Result<(), AllocError>
        ensures ok { OnOk result
            ((place : List ℕ) →
            slot_at self.new place ≡ taken_at top rows.now place (slot_at self.old place)) }
        ensures noted { (oids : List ℕ) (start : Entries) →
            AllByRecursion (IsOf oids start) rows.now →
            AreNoted oids start self.old undos.old.items →
            AreNoted oids start self.new undos.new.items }
    {
        for row in rows {
            self.note(undos, top, row.as_slice(), None)?;
        }
        Ok(())
    }

    /// Holds tables for a transaction.
    fn hold_tables(
        &mut self,
        undos: &mut Vec<Undo>,
        top: u32,
        oids: &[u32],
    ) -> Result<(), AllocError>
        ensures ok { OnOk result
            ((place : List ℕ) →
            slot_at self.new place
            ≡ put_at (Some top) (all_emptied oids.now) place (slot_at self.old place)) }
        ensures noted { (start : Entries) → AreNoted oids.now start self.old undos.old.items →
            AreNoted oids.now start self.new undos.new.items }
    {
        for oid in oids {
            let table = PlaceKey::of_table(*oid);
            self.note(undos, top, table.as_bytes(), None)?;
        }
        Ok(())
    }
}
