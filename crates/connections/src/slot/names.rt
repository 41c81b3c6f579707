//! The names of slots, and the seat by which slots are made and dropped.

ghost use Rattle.std.specs.Prelude.{◌≡◌, ℕ, ◌<◌, ◌≤◌, None, Some, IfErr, IfOk, IfSome, OnErr, OnOk};
ghost use Rattle.slots.specs.Directories.{AreSame, ChangesOnly, count_of, place_of};
ghost use Rattle.slots.specs.Seats.{Did, Made};
ghost use Rattle.slots.specs.declared.words_kept.step.SlotKind.TheVariants.{Retire};
ghost use Rattle.slots.specs.declared.table.TheConstants.{END_OF_PLACES};
ghost use Rattle.connections.specs.Names.{AreInTable, IsNoDrop, IsNoNewSlot};

use crate::slot::free_place::{FreePlace, first_places};
use slots::{Directory, SlotFault, SlotName, SlotSeat, SlotTable};
use std::alloc::{AllocError, Global};

/// The slots by name, with a seat that makes and drops them: at most so many at once.
#[derive(Drop)]
pub struct Names<L: SlotName> {
    directory: Directory,
    seat: SlotSeat<L>,
    /// One for each slot that may be made yet.
    free: Vec<FreePlace>,
    most: usize,
    ghost in_table: { AreInTable directory },
    ghost few: { count_of directory ≤ most },
}

impl<L: SlotName> Names<L> {
    /// No names, of at most so many. `AllocError` where memory is refused; the seat is gone then.
    pub fn new(alloc: Global, seat: SlotSeat<L>, most: usize) -> Result<Self, AllocError>
        ensures { IfOk result (λ names. names.most ≡ most) }
    {
        match first_places(alloc, most) {
            Ok(free) => Ok(Names {
                directory: Directory::new(alloc),
                seat,
                free,
                most,
            }),
            Err(refused) => {
                drop(seat);
                Err(refused)
            }
        }
    }

    /// The place of the slot of this name. None: there is none.
    pub fn place_of(&self, name: &str) -> Option<usize>
        ensures named { result ≡ place_of self.now.directory name.now }
        ensures inside { IfSome result (λ place. place < END_OF_PLACES) }
    {
        self.directory.find(name)
    }

    /// Makes a slot of a new name, which is free, with this position confirmed, or the one of its line if that is further. `Exists`
    /// (L3) where the name is there, then `NoPlace` (L4) where there are as many slots as may be, then `Memory` (L5), which has
    /// used up a place.
    pub fn create(
        &mut self,
        slots: &SlotTable<L>,
        name: &str,
        position: u64,
    ) -> Result<(), SlotFault>
        ensures new { OnOk result (place_of self.old.directory name.now ≡ None) }
        ensures room { OnOk result (count_of self.old.directory < self.old.most) }
        ensures ok { OnOk result
            ((place : ℕ) × Made self.old.seat position place self.new.seat
            × ChangesOnly self.old.directory self.new.directory name.now (Some place)) }
        ensures err { OnErr result (AreSame self.old.directory self.new.directory) }
        ensures fault { IfErr result (λ fault. IsNoNewSlot fault
            (place_of self.old.directory name.now) position self.old.seat self.new.seat) }
        ensures most { self.new.most ≡ self.old.most }
    {
        if self.directory.find(name).is_some() {
            return Err(SlotFault::Exists);
        }
        if self.directory.count() >= self.most {
            return Err(SlotFault::NoPlace);
        }
        let free = self.free.pop().ok_or(SlotFault::NoPlace)?;
        slots.make(&mut self.seat, free.place, position)?;
        if let Err(fault) = self.directory.add(name, free.place) {
            let _ = slots.drop_slot(&mut self.seat, free.place);
            self.go_on(free);
            return Err(fault);
        }
        Ok(())
    }

    /// Drops the slot of this name. `Missing` (L1) where there is none, `InUse` (L2) where it is held.
    pub fn drop_slot(&mut self, slots: &SlotTable<L>, name: &str) -> Result<(), SlotFault>
        ensures ok { OnOk result
            ((place : ℕ) × (place_of self.old.directory name.now ≡ Some place)
            × Did Retire place 1 2 self.old.seat self.new.seat
            × ChangesOnly self.old.directory self.new.directory name.now None) }
        ensures err { OnErr result (AreSame self.old.directory self.new.directory) }
        ensures fault { IfErr result (λ fault. IsNoDrop fault
            (place_of self.old.directory name.now) self.old.seat self.new.seat) }
        ensures most { self.new.most ≡ self.old.most }
    {
        let place = self.place_of(name).ok_or(SlotFault::Missing)?;
        slots.drop_slot(&mut self.seat, place)?;
        self.directory.remove(name);
        self.go_on(FreePlace { place });
        Ok(())
    }

    /// The line of a place that was dropped goes on to the next one. There is room for each that was taken.
    fn go_on(&mut self, dropped: FreePlace)
        ensures directory { self.new.directory ≡ self.old.directory }
        ensures seat { self.new.seat ≡ self.old.seat }
        ensures most { self.new.most ≡ self.old.most }
    {
        if let Some(next) = dropped.next() {
            let _ = self.free.push(next);
        }
    }
}
