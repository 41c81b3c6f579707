//! The writer, and what it knows of its log.

pub(crate) mod given;
pub(crate) mod openings;
pub(crate) mod outline;
pub(crate) mod receipt;
pub(crate) mod state;
pub(crate) mod writer;
