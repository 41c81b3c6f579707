//! Slots, as entries beside the records of a log tell them.

pub(crate) mod kept_slot;
pub(crate) mod laws;
pub(crate) mod reading;
pub(crate) mod slot_event;
pub(crate) mod slots_in_log;
pub(crate) mod writing;
