//! A turn: from a reader of the log to whatever takes the stream.

pub(crate) mod limits;
pub(crate) mod turn_fault;
pub(crate) mod turning;
