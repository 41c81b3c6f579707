//! The turns of a connection by its stages.

pub(crate) mod copying;
pub(crate) mod opening;
pub(crate) mod skipping;
pub(crate) mod stage;
pub(crate) mod streaming;
pub(crate) mod turn;
