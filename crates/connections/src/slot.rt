//! A slot, for whoever holds, awaits or looks at it.

pub(crate) mod flush_lag;
pub(crate) mod free_place;
pub(crate) mod hold;
pub(crate) mod latch;
pub(crate) mod names;
pub(crate) mod slot_keeping;
pub(crate) mod slot_monitor;
pub(crate) mod slot_snapshot;
pub(crate) mod slot_standing;
pub(crate) mod stream_control;
