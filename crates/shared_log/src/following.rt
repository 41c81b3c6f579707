//! The readers.

pub(crate) mod reader;
pub(crate) mod resuming;
