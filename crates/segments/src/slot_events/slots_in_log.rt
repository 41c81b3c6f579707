//! The slots that the entries of a log leave.

ghost use Rattle.std.specs.Prelude.{◌≡◌, ℕ, List, None, Some, OnOk};
ghost use Rattle.segments.specs.Slots.{Follows, SetsSlot, slot_named};

use crate::slot_events::kept_slot::KeptSlot;
use crate::slot_events::slot_event::SlotEvent;
use std::alloc::{AllocError, Global};
use std::collections::BTreeMap;

/// Slots by their names. Contracts see one for each name, or none.
#[derive(Drop)]
pub struct SlotsInLog {
    alloc: Global,
    slots: BTreeMap<String, KeptSlot>,
}

impl SlotsInLog {
    /// No slots.
    pub fn new(alloc: Global) -> Self
        ensures { (name : List ℕ) → slot_named name result ≡ None }
    {
        SlotsInLog {
            alloc,
            slots: BTreeMap::new(alloc),
        }
    }

    /// This became of a slot. `AllocError` where memory is refused.
    pub fn take(&mut self, event: SlotEvent) -> Result<(), AllocError>
        ensures { OnOk result (Follows event self.old self.new) }
    {
        match event {
            SlotEvent::Stands(slot) => self.set(slot),
            SlotEvent::Dropped(name) => {
                self.forget(name.as_str());
                Ok(())
            }
        }
    }

    fn set(&mut self, slot: KeptSlot) -> Result<(), AllocError>
        ensures { OnOk result (SetsSlot slot.name (Some slot) self.old self.new) }
    {
        let name = match String::from_str(self.alloc, slot.name.as_str()) {
            Ok(name) => name,
            Err(refused) => {
                drop(slot);
                return Err(refused);
            }
        };
        self.slots.insert(name, slot)?;
        Ok(())
    }

    fn forget(&mut self, name: &str)
        ensures { SetsSlot name.now None self.old self.new }
    {
        self.slots.remove(name);
    }

    /// Takes one of them away. None: no slot is left.
    pub fn pop(&mut self) -> Option<KeptSlot> {
        match self.slots.pop_first() {
            Some((_, slot)) => Some(slot),
            None => None,
        }
    }

    /// The least position that one of them is confirmed at which was not given up. None: there is none.
    pub fn least_confirmed(&self) -> Option<u64> {
        let mut least = None;
        for slot in self.slots.values() {
            if !slot.is_lost {
                least = Some(slot.confirmed.min(least.unwrap_or(u64::MAX)));
            }
        }
        least
    }
}
