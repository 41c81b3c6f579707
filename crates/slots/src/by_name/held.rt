//! Slots by name, with the leases of those that are held.

ghost use Rattle.std.specs.Prelude.{◌≡◌, IfErr, IfOk, None, OnErr, OnOk, Some, false, is_some, map, option_map, vec_len};
ghost use Rattle.std.specs.List.{AllByRecursion};
ghost use Rattle.slots.specs.Words.{confirmed_in};
ghost use Rattle.slots.specs.State.{IsHeldAs, IsOnlyAt, RefusedExactly, RefusedOrMemory, claim_refusal, confirmed_of, create_refusal, is_in_use, no_slots, place_of, slot_of, slots_after_claim, slots_after_create, slots_after_raise_by_name, slots_after_refusal, slots_after_release_by_name};
ghost use Rattle.slots.specs.Keeping.{confirmed_slot};

use crate::by_name::named::NamedSlots;
use crate::by_name::slot::Slot;
use crate::fault::SlotFault;
use crate::lease::Lease;
use crate::opened::OpenedSlots;
use crate::rule::SlotName;
use crate::table::PLACES;
use std::alloc::{AllocError, Global};
use std::marker::Model;
use std::mem;

/// Slots by their names, and who holds them is the caller's to know: a slot that was claimed is held until it is released. It
/// isn't `Drop`: `close` releases all.
pub struct HeldSlots<L: SlotName> {
    slots: NamedSlots<L>,
    leases: Vec<Option<Lease<L>>>,
}

impl<L: SlotName> Model for HeldSlots<L> {
    ghost use Rattle.std.specs.Prelude.{◌≡◌, map, option_map, vec_len};
    ghost use Rattle.slots.specs.declared.table.TheConstants.{PLACES};
    ghost use Rattle.slots.specs.State.{SlotsState};
    ghost use Rattle.slots.specs.Leasing.{AreLeases};

    ghost Value = { SlotsState };

    ghost view = { λ h. h.slots };

    ghost invariant = { λ h. (vec_len h.leases ≡ PLACES)
        × AreLeases h.slots (map (option_map (λ lease. lease.place)) h.leases.items) };
}

impl<L: SlotName> HeldSlots<L> {
    /// No slots, in a new table. `AllocError` where memory is refused.
    pub fn open(alloc: Global, opened: OpenedSlots) -> Result<Self, AllocError>
        requires name { opened.first.table_id ≡ L.table }
        ensures { IfOk result (λ slots. slots ≡ no_slots) }
    {
        let slots = NamedSlots::open(alloc, opened)?;
        match no_leases(alloc) {
            Ok(leases) => Ok(HeldSlots { slots, leases }),
            Err(refused) => {
                // Let go by one call, which keeps the proof short.
                drop(slots);
                Err(refused)
            }
        }
    }

    /// Releases all slots.
    pub fn close(self) {
        let HeldSlots {
            mut slots,
            mut leases,
        } = self;
        while let Some(lease) = leases.pop() {
            if let Some(lease) = lease {
                slots.release(lease);
            }
        }
        leases.destroy_empty();
    }

    /// A new slot, which is free and confirmed at this position. `Exists` (L3) where the name is there, then `NoPlace` (L4)
    /// where no place is left. `Memory` (L5) uses up a place.
    pub fn create(&mut self, name: &str, position: u64) -> Result<(), SlotFault>
        ensures ok { OnOk result (self.new ≡ slots_after_create name.now position self.old) }
        ensures err { IfErr result (λ fault. self.new ≡ slots_after_refusal fault self.old) }
        ensures refused { RefusedOrMemory (create_refusal name.now self.old) result }
    {
        self.slots.create(name, position)
    }

    /// Whether there is a slot of this name.
    pub fn has(&self, name: &str) -> bool
        ensures { result ≡ is_some (slot_of name.now self.now.slots) }
    {
        self.slots.has(name)
    }

    /// Whether the slot of this name is held. It takes no memory.
    pub fn is_held(&self, name: &str) -> bool
        ensures { result ≡ is_in_use (slot_of name.now self.now.slots) }
    {
        let Some(place) = self.slots.place(name) else {
            return false;
        };
        self.leases[place].is_some()
    }

    /// How far the slot of this name is confirmed, or 0 where there is none.
    pub fn confirmed(&self, name: &str) -> u64
        ensures { result ≡ confirmed_of (slot_of name.now self.now.slots) }
    {
        confirmed_in(self.slots(), name)
    }

    /// Takes the slot of this name, and answers its confirmed position. It takes no memory. `Missing` (L1) where there is none,
    /// `InUse` (L2) where it is held.
    pub fn claim(&mut self, name: &str) -> Result<u64, SlotFault>
        ensures ok { OnOk result (self.new ≡ slots_after_claim name.now self.old) }
        ensures value { IfOk result (λ at. at ≡ confirmed_of (slot_of name.now self.old.slots)) }
        ensures err { OnErr result (self.new ≡ self.old) }
        ensures refused { RefusedExactly (claim_refusal name.now self.old) result }
    {
        let lease = self.slots.claim(name)?;
        let confirmed = self.slots.confirmed(&lease);
        let place = lease.place;
        match mem::replace(&mut self.leases[place], Some(lease)) {
            None => Ok(confirmed),
            Some(_other) => unreachable!(),
        }
    }

    /// Raises the confirmed position of the slot of this name, if there is one. It never goes back.
    pub fn confirm(&mut self, name: &str, position: u64)
        ensures { self.new ≡ slots_after_raise_by_name name.now position self.old }
    {
        let Some(place) = self.slots.place(name) else {
            return;
        };
        match &mut self.leases[place] {
            Some(lease) => {
                let _confirmed = self.slots.confirm(lease, position);
            }
            None => confirm_free(&mut self.slots, name, place, position),
        }
    }

    /// The slot of this name is free again, if there is one.
    pub fn release(&mut self, name: &str)
        ensures { self.new ≡ slots_after_release_by_name name.now self.old }
    {
        let Some(place) = self.slots.place(name) else {
            return;
        };
        if let Some(lease) = mem::replace(&mut self.leases[place], None) {
            self.slots.release(lease);
        }
    }

    /// The slots, in the order of their creation.
    pub fn slots(&self) -> &[Slot]
        ensures { result.now ≡ map confirmed_slot self.now.slots }
    {
        self.slots.slots()
    }
}

/// No lease of any place.
fn no_leases<L: SlotName>(alloc: Global) -> Result<Vec<Option<Lease<L>>>, AllocError>
    ensures { IfOk result
        (λ leases. (vec_len leases ≡ PLACES)
        × AllByRecursion (λ o. o ≡ None)
        (map (option_map (λ lease. lease.place)) leases.items)) }
{
    let mut leases = Vec::with_capacity(alloc, PLACES)?;
    for _ in 0..PLACES {
        leases.push_reserved(None);
    }
    Ok(leases)
}

/// Raises the confirmed position of a slot that nobody holds.
fn confirm_free<L: SlotName>(slots: &mut NamedSlots<L>, name: &str, place: usize, position: u64)
    requires only { IsOnlyAt name.now place slots.old.slots }
    requires free { IsHeldAs false place slots.old.slots }
    requires found { place_of name.now slots.old ≡ Some place }
    ensures { slots.new ≡ slots_after_raise_by_name name.now position slots.old }
{
    let Ok(mut lease) = slots.claim(name) else {
        unreachable!();
    };
    let _confirmed = slots.confirm(&mut lease, position);
    slots.release(lease);
}

/// How far the first of these of this name is confirmed, or 0 where there is none.
fn confirmed_in(slots: &[Slot], name: &str) -> u64
    ensures { result ≡ confirmed_in name.now slots.now }
{
    for slot in slots {
        if slot.name() == name {
            return slot.confirmed();
        }
    }
    0
}
