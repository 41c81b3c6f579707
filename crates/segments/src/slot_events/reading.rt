//! How it is read what became of a slot.

ghost use Rattle.std.specs.Prelude.{◌≡◌};
ghost use Rattle.segments.specs.RecordReading.{Answers};
ghost use Rattle.segments.specs.SlotEvents.{event_in, flag_of, named_in, owner_in, slot_in, text_of};

use crate::records::fault::RecordFault;
use crate::slot_events::kept_slot::KeptSlot;
use crate::slot_events::slot_event::SlotEvent;
use crate::slot_events::writing::{DROPPED_TAG, OWNED, SLOT_TAG};
use pqformat::{Cursor, Text, utf8_of};
use std::alloc::Global;

/// What these bytes tell of a slot. `NoRecord` where they tell of none, or `Memory`.
pub fn read_slot_event(alloc: Global, bytes: &[u8]) -> Result<SlotEvent, RecordFault>
    ensures { Answers (λ event. event) result (event_in bytes.now) }
{
    let mut cursor = Cursor::new(bytes);
    let tag = cursor.u8().ok_or(RecordFault::NoRecord)?;
    let fields = cursor.rest();
    match tag {
        SLOT_TAG => Ok(SlotEvent::Stands(slot_of(alloc, fields)?)),
        DROPPED_TAG => Ok(SlotEvent::Dropped(text_of(alloc, fields)?)),
        _ => Err(RecordFault::NoRecord),
    }
}

fn slot_of(alloc: Global, bytes: &[u8]) -> Result<KeptSlot, RecordFault>
    ensures { Answers (λ slot. slot) result (slot_in bytes.now) }
{
    let mut cursor = Cursor::new(bytes);
    let confirmed = cursor.u64().ok_or(RecordFault::NoRecord)?;
    let flag = cursor.u8().ok_or(RecordFault::NoRecord)?;
    let is_lost = flag_of(flag)?;
    named_of(alloc, confirmed, is_lost, cursor.rest())
}

fn flag_of(byte: u8) -> Result<bool, RecordFault>
    ensures { Answers (λ flag. flag) result (flag_of byte) }
{
    match byte {
        0 => Ok(false),
        1 => Ok(true),
        _ => Err(RecordFault::NoRecord),
    }
}

/// The slot of the name that stands here, with its owner after it.
fn named_of(
    alloc: Global,
    confirmed: u64,
    is_lost: bool,
    bytes: &[u8],
) -> Result<KeptSlot, RecordFault>
    ensures { Answers (λ slot. slot) result (named_in confirmed is_lost bytes.now) }
{
    let mut cursor = Cursor::new(bytes);
    let name = cursor.cstr().ok_or(RecordFault::NoRecord)?;
    let name = text_of(alloc, name)?;
    let owner = owner_of(alloc, cursor.rest())?;
    Ok(KeptSlot {
        name,
        owner,
        confirmed,
        is_lost,
    })
}

fn owner_of(alloc: Global, bytes: &[u8]) -> Result<Option<Text>, RecordFault>
    ensures { Answers (λ owner. owner) result (owner_in bytes.now) }
{
    let mut cursor = Cursor::new(bytes);
    match cursor.u8() {
        None => Ok(None),
        Some(OWNED) => Ok(Some(text_of(alloc, cursor.rest())?)),
        Some(_) => Err(RecordFault::NoRecord),
    }
}

/// A text, and nothing else.
pub(crate) fn text_of(alloc: Global, bytes: &[u8]) -> Result<Text, RecordFault>
    ensures { Answers (λ text. text) result (text_of bytes.now) }
{
    let text = utf8_of(bytes).ok_or(RecordFault::NoRecord)?;
    Ok(Text::copy_of(alloc, text)?)
}
