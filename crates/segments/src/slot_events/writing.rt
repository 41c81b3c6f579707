//! How an entry tells what became of a slot.

ghost use Rattle.std.specs.Prelude.{◌≡◌, ◌++◌, OnOk};
ghost use Rattle.segments.specs.SlotEvents.{spell_event, spell_owner, spell_slot};

use crate::slot_events::kept_slot::KeptSlot;
use crate::slot_events::slot_event::SlotEvent;
use bytes::BytesMut;
use pqformat::{Text, put_byte, put_bytes, put_int64, put_string};
use std::alloc::AllocError;

/// The first byte of what tells how a slot stands.
pub const SLOT_TAG: u8 = 7;

/// The first byte of what tells that a slot was dropped.
pub const DROPPED_TAG: u8 = 8;

/// What stands before the name of a slot's owner.
pub const OWNED: u8 = 1;

/// Adds what tells it: the body of its entry. `AllocError` where memory is refused; some of it may have been added then.
pub fn put_slot_event(event: &SlotEvent, out: &mut BytesMut) -> Result<(), AllocError>
    ensures { OnOk result (out.new.items ≡ out.old.items ++ spell_event event.now) }
{
    match event {
        SlotEvent::Stands(slot) => {
            put_byte(out, SLOT_TAG)?;
            put_slot(slot, out)
        }
        SlotEvent::Dropped(name) => {
            put_byte(out, DROPPED_TAG)?;
            put_bytes(out, name.as_str().as_bytes())
        }
    }
}

fn put_slot(slot: &KeptSlot, out: &mut BytesMut) -> Result<(), AllocError>
    ensures { OnOk result (out.new.items ≡ out.old.items ++ spell_slot slot.now) }
{
    put_int64(out, slot.confirmed)?;
    put_byte(out, if slot.is_lost { 1 } else { 0 })?;
    put_string(out, slot.name.as_str())?;
    put_owner(&slot.owner, out)
}

fn put_owner(owner: &Option<Text>, out: &mut BytesMut) -> Result<(), AllocError>
    ensures { OnOk result (out.new.items ≡ out.old.items ++ spell_owner owner.now) }
{
    match owner {
        Some(owner) => {
            put_byte(out, OWNED)?;
            put_bytes(out, owner.as_str().as_bytes())
        }
        None => Ok(()),
    }
}
