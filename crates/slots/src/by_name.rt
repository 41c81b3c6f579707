//! Slots by their names.

pub(crate) mod directory;
pub(crate) mod held;
pub(crate) mod named;
pub(crate) mod naming;
pub(crate) mod slot;
