//! Slots by name.

ghost use Rattle.std.specs.Prelude.{◌≡◌, ℕ, List, ◌<◌, IfErr, IfOk, IfSome, IsNone, OnErr, OnOk, Some, false, is_some, map, true};
ghost use Rattle.slots.specs.State.{IsHeldAs, IsOnlyAt, IsUnnamed, RefusedExactly, RefusedOrMemory, claim_refusal, confirmed_of, create_refusal, holds_at, no_slots, place_of, slot_at, slot_of, slots_after_claim, slots_after_create, slots_after_raise, slots_after_raise_by_name, slots_after_refusal, slots_after_release, slots_after_release_by_name};
ghost use Rattle.slots.specs.Keeping.{confirmed_slot};
ghost use Rattle.slots.specs.declared.table.TheConstants.{PLACES};

use crate::by_name::directory::Directory;
use crate::by_name::naming::{name_place, note};
use crate::by_name::slot::Slot;
use crate::fault::SlotFault;
use crate::lease::Lease;
use crate::opened::OpenedSlots;
use crate::rule::SlotName;
use crate::seat::SlotSeat;
use crate::table::SlotTable;
use std::alloc::{AllocError, Global};
use std::marker::Model;

/// Slots by their names, in a table that no other seat uses. Whoever claims a slot gets a lease, and gives it back by `release`;
/// until then the slot is in use. Contracts see the slots in the order of their creation, and how many of the 16 places are used up.
#[derive(Drop)]
pub struct NamedSlots<L: SlotName> {
    alloc: Global,
    table: SlotTable<L>,
    seat: SlotSeat<L>,
    directory: Directory,
    slots: Vec<Slot>,
    places: usize,
}

impl<L: SlotName> Model for NamedSlots<L> {
    ghost use Rattle.slots.specs.State.{SlotsState};
    ghost use Rattle.slots.specs.Keeping.{IsNamed, StandsIn, slots_in_view};

    ghost Value = { SlotsState };

    ghost view = { λ n. slots_in_view n.seat n.slots.items n.places };

    ghost invariant = { λ n. IsNamed n.directory n.slots.items n.places
        × StandsIn n.seat n.slots.items n.places };
}

impl<L: SlotName> NamedSlots<L> {
    /// No slots, in a new table. `AllocError` where memory is refused.
    pub fn open(alloc: Global, opened: OpenedSlots) -> Result<Self, AllocError>
        requires name { opened.first.table_id ≡ L.table }
        ensures { IfOk result (λ slots. slots ≡ no_slots) }
    {
        let (table, mut seats) = opened.open(1)?;
        let Some(seat) = seats.pop() else {
            unreachable!();
        };
        Ok(NamedSlots {
            alloc,
            table,
            seat,
            directory: Directory::new(alloc),
            slots: Vec::new(alloc),
            places: 0,
        })
    }

    /// A new slot, which is free and confirmed at this position. `Exists` (L3) where the name is there, then `NoPlace` (L4)
    /// where no place is left. `Memory` (L5) uses up a place.
    pub fn create(&mut self, name: &str, position: u64) -> Result<(), SlotFault>
        ensures ok { OnOk result (self.new ≡ slots_after_create name.now position self.old) }
        ensures err { IfErr result (λ fault. self.new ≡ slots_after_refusal fault self.old) }
        ensures refused { RefusedOrMemory (create_refusal name.now self.old) result }
    {
        if self.directory.find(name).is_some() {
            return Err(SlotFault::Exists);
        }
        let place = self.table.create(&mut self.seat, position)?;
        self.places += 1;
        let directory = &mut self.directory;
        let slots = &mut self.slots;
        match name_place(self.alloc, directory, slots, name, place, position) {
            Ok(()) => Ok(()),
            Err(fault) => {
                let _dropped = self.table.drop_slot(&mut self.seat, place);
                Err(fault)
            }
        }
    }

    /// Whether there is a slot of this name.
    pub(crate) fn has(&self, name: &str) -> bool
        ensures { result ≡ is_some (slot_of name.now self.now.slots) }
    {
        self.directory.find(name).is_some()
    }

    /// The place of the slot of this name.
    pub(crate) fn place(&self, name: &str) -> Option<usize>
        ensures within { IfSome result (λ place. place < PLACES) }
        ensures only { IfSome result (λ place. IsOnlyAt name.now place self.now.slots) }
        ensures alike { IfSome result
            (λ place. IsHeldAs (holds_at place self.now) place self.now.slots) }
        ensures found { IfSome result (λ place. place_of name.now self.now ≡ Some place) }
        ensures none { IsNone result → IsUnnamed name.now self.now.slots }
    {
        self.directory.find(name)
    }

    /// Takes the slot of this name. It takes no memory. `Missing` (L1) where there is none, `InUse` (L2) where it is held.
    pub fn claim(&mut self, name: &str) -> Result<Lease<L>, SlotFault>
        ensures ok { OnOk result (self.new ≡ slots_after_claim name.now self.old) }
        ensures within { IfOk result (λ lease. lease.place < PLACES) }
        ensures only { IfOk result (λ lease. IsOnlyAt name.now lease.place self.old.slots) }
        ensures lease { IfOk result
            (λ lease. (place_of name.now self.new ≡ Some lease.place)
            × (holds_at lease.place self.old ≡ false)
            × (holds_at lease.place self.new ≡ true)) }
        ensures err { OnErr result (self.new ≡ self.old) }
        ensures refused { RefusedExactly (claim_refusal name.now self.old) result }
    {
        let Some(place) = self.directory.find(name) else {
            return Err(SlotFault::Missing);
        };
        self.table.claim(&mut self.seat, place)
    }

    /// The confirmed position of the slot that is held.
    pub fn confirmed(&mut self, lease: &Lease<L>) -> u64
        requires { holds_at lease.now.place self.old ≡ true }
        ensures value { result ≡ confirmed_of (slot_at lease.now.place self.old.slots) }
        ensures same { self.new ≡ self.old }
    {
        self.table.confirmed(&mut self.seat, lease)
    }

    /// Raises the confirmed position of the slot that is held, and answers it: the greater of the old and the new.
    pub fn confirm(&mut self, lease: &mut Lease<L>, position: u64) -> u64
        requires { holds_at lease.old.place self.old ≡ true }
        ensures value { result ≡ confirmed_of (slot_at lease.old.place self.new.slots) }
        ensures raised { self.new ≡ slots_after_raise lease.old.place position self.old }
        ensures named { (name : List ℕ) → place_of name self.old ≡ Some lease.old.place →
            self.new ≡ slots_after_raise_by_name name position self.old }
        ensures lease { lease.new ≡ lease.old }
    {
        let confirmed = self.table.confirm(&mut self.seat, lease, position);
        note(&mut self.slots, lease.place, confirmed);
        confirmed
    }

    /// The slot that was held is free again.
    pub fn release(&mut self, lease: Lease<L>)
        requires { holds_at lease.place self.old ≡ true }
        ensures released { self.new ≡ slots_after_release lease.place self.old }
        ensures named { (name : List ℕ) → place_of name self.old ≡ Some lease.place →
            self.new ≡ slots_after_release_by_name name self.old }
    {
        self.table.release(&mut self.seat, lease);
    }

    /// The slots, in the order of their creation.
    pub fn slots(&self) -> &[Slot]
        ensures { result.now ≡ map confirmed_slot self.now.slots }
    {
        self.slots.as_slice()
    }
}
