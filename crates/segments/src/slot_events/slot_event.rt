//! What becomes of slots.

use crate::slot_events::kept_slot::KeptSlot;
use pqformat::Text;

/// What an entry tells of a slot.
#[derive(Debug, Drop)]
pub enum SlotEvent {
    /// It stands so from then on.
    Stands(KeptSlot),
    /// The slot of this name was dropped.
    Dropped(Text),
}
