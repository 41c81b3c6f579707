//! What is told of a slot is read again as it was.

ghost use Rattle.std.specs.Prelude.{◌≡◌, Ok};
ghost use Rattle.segments.specs.SlotEvents.{IsToldEvent, event_in, spell_event};
ghost use Rattle.segments.specs.declared.slot_events.slot_event.SlotEvent.{SlotEvent};

/// What became of a slot is read again from what tells it.
pub fn a_slot_event_is_read_again()
    ensures { (event : SlotEvent) → IsToldEvent event → event_in (spell_event event) ≡ Ok event }
{}
