//! The commands, one a file.

pub(crate) mod create;
pub(crate) mod drop_slot;
pub(crate) mod identify;
pub(crate) mod start;
