//! What calls answer, and why they refuse.

pub(crate) mod fault;
pub(crate) mod receipt;
pub(crate) mod replay_fault;
pub(crate) mod snapshot_fault;
