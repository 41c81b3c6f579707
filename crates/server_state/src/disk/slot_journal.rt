//! How slots stand, on the disk and now.

ghost use Rattle.std.specs.Prelude.{◌≤◌};

use segments::{KeptSlot, SlotEvent};
use std::alloc::{AllocError, Global};

/// The slot at a place.
#[derive(Drop)]
pub(crate) struct Standing {
    /// Which slot of its place it is: they are counted.
    pub number: u64,
    pub slot: KeptSlot,
}

impl Standing {
    fn is_as(&self, other: &Standing) -> bool {
        self.number == other.number
            && self.slot.confirmed == other.slot.confirmed
            && self.slot.is_lost == other.slot.is_lost
    }
}

/// How the slot at each place stands, if one does.
#[derive(Drop)]
pub(crate) struct SlotJournal {
    pub places: Vec<Option<Standing>>,
}

impl SlotJournal {
    /// No slots.
    pub fn new(alloc: Global) -> Self {
        SlotJournal {
            places: Vec::new(alloc),
        }
    }

    fn at(&self, place: usize) -> Option<&Standing> {
        match self.places.get(place) {
            Some(standing) => standing.as_ref(),
            None => None,
        }
    }

    /// The least position that a slot is confirmed at which isn't given up, or this one.
    pub fn least_confirmed(&self, end: u64) -> u64
        ensures { result ≤ end }
    {
        let mut least = end;
        for standing in &self.places {
            if let Some(standing) = standing {
                if !standing.slot.is_lost {
                    least = least.min(standing.slot.confirmed);
                }
            }
        }
        least
    }

    /// What became of slots since they stood as in another journal: which were dropped, and then how others stand. `AllocError` where
    /// memory for it is refused.
    pub fn since(&self, alloc: Global, before: &SlotJournal) -> Result<Vec<SlotEvent>, AllocError> {
        let mut events = Vec::new(alloc);
        self.add_dropped(alloc, before, &mut events)?;
        self.add_others(alloc, before, &mut events)?;
        Ok(events)
    }

    fn add_dropped(
        &self,
        alloc: Global,
        before: &SlotJournal,
        events: &mut Vec<SlotEvent>,
    ) -> Result<(), AllocError> {
        let mut place = 0;
        for standing in &before.places {
            if let Some(standing) = standing {
                if !self.has(place, standing) {
                    events.push(SlotEvent::Dropped(standing.slot.name.copy(alloc)?))?;
                }
            }
            place = place.saturating_add(1);
        }
        Ok(())
    }

    /// Whether that slot is still at its place.
    fn has(&self, place: usize, standing: &Standing) -> bool {
        match self.at(place) {
            Some(now) => now.number == standing.number,
            None => false,
        }
    }

    fn add_others(
        &self,
        alloc: Global,
        before: &SlotJournal,
        events: &mut Vec<SlotEvent>,
    ) -> Result<(), AllocError> {
        let mut place = 0;
        for standing in &self.places {
            if let Some(standing) = standing {
                if !before.has_so(place, standing) {
                    events.push(SlotEvent::Stands(copy_of(alloc, &standing.slot)?))?;
                }
            }
            place = place.saturating_add(1);
        }
        Ok(())
    }

    /// Whether that slot stood so at its place.
    fn has_so(&self, place: usize, standing: &Standing) -> bool {
        match self.at(place) {
            Some(before) => before.is_as(standing),
            None => false,
        }
    }
}

fn copy_of(alloc: Global, slot: &KeptSlot) -> Result<KeptSlot, AllocError> {
    let name = slot.name.copy(alloc)?;
    let owner = match &slot.owner {
        Some(owner) => Some(owner.copy(alloc)?),
        None => None,
    };
    Ok(KeptSlot {
        name,
        owner,
        confirmed: slot.confirmed,
        is_lost: slot.is_lost,
    })
}
