//! Slots that threads share: what no clause says of many calls side by side.

pub mod gate;
pub mod one_slot;
pub mod wrong;
