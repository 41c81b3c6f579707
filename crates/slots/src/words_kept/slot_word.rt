//! What a start says of a slot.

ghost use Rattle.std.specs.Prelude.{◌≡◌, IfErr, IfOk, OnErr, OnOk, false, true};
ghost use Rattle.slots.specs.declared.fault.SlotFault.TheVariants.{InUse};
ghost use Rattle.slots.specs.Words.{is_held, is_missing, slot_named, slots_after_taking, start_from};
ghost use Rattle.slots.specs.Words.{slots_after_confirming, slots_after_letting_go};

use crate::by_name::held::HeldSlots;
use crate::fault::SlotFault;
use crate::rule::SlotName;
use pqformat::Text;
use std::alloc::{AllocError, Global};

/// What a start names instead of a slot.
const NO_SLOT: &str = "-";

/// The slot that the word names; None where it is `-`. `AllocError` where memory for the name is refused.
pub fn slot_named(alloc: Global, word: &Text) -> Result<Option<Text>, AllocError>
    ensures { IfOk result (λ slot. slot ≡ slot_named word.now) }
{
    if word.as_str() == NO_SLOT {
        return Ok(None);
    }
    Ok(Some(word.copy(alloc)?))
}

/// Whether the word names a slot that isn't there.
pub fn is_missing<L: SlotName>(slots: &HeldSlots<L>, word: &Text) -> bool
    ensures { result ≡ is_missing (slot_named word.now) slots.now }
{
    word.as_str() != NO_SLOT && !slots.has(word.as_str())
}

/// Whether the word names a slot that is held.
pub fn is_held<L: SlotName>(slots: &HeldSlots<L>, word: &Text) -> bool
    ensures { result ≡ is_held (slot_named word.now) slots.now }
{
    word.as_str() != NO_SLOT && slots.is_held(word.as_str())
}

/// Takes the slot that the word names, if it names one, and answers where a stream begins that asked for this position. `InUse`
/// (L2) where the slot is held.
pub fn take<L: SlotName>(
    slots: &mut HeldSlots<L>,
    word: &Text,
    position: u64,
) -> Result<u64, SlotFault>
    requires { is_missing (slot_named word.now) slots.old ≡ false }
    ensures ok { OnOk result (slots.new ≡ slots_after_taking (slot_named word.now) slots.old) }
    ensures from { IfOk result
        (λ start. start ≡ start_from (slot_named word.now) position slots.old) }
    ensures free { OnOk result (is_held (slot_named word.now) slots.old ≡ false) }
    ensures err { OnErr result (slots.new ≡ slots.old) }
    ensures held { IfErr result
        (λ fault. (fault ≡ InUse) × (is_held (slot_named word.now) slots.old ≡ true)) }
{
    if word.as_str() == NO_SLOT {
        return Ok(position);
    }
    let confirmed = slots.claim(word.as_str())?;
    Ok(position.max(confirmed))
}

/// Where a stream begins that asked for this position and streams from the slot that the word names, if it names one.
pub fn start_from<L: SlotName>(slots: &HeldSlots<L>, word: &Text, position: u64) -> u64
    ensures { result ≡ start_from (slot_named word.now) position slots.now }
{
    if word.as_str() == NO_SLOT {
        return position;
    }
    position.max(slots.confirmed(word.as_str()))
}

/// Confirms the position at the slot, if there is one.
pub fn confirm<L: SlotName>(slots: &mut HeldSlots<L>, slot: &Option<Text>, position: u64)
    ensures { slots.new ≡ slots_after_confirming slot.now position slots.old }
{
    match slot {
        Some(name) => slots.confirm(name.as_str(), position),
        None => {}
    }
}

/// The slot is free again, if there is one.
pub fn let_go<L: SlotName>(slots: &mut HeldSlots<L>, slot: Option<Text>)
    ensures { slots.new ≡ slots_after_letting_go slot slots.old }
{
    match slot {
        Some(name) => slots.release(name.as_str()),
        None => {}
    }
}
