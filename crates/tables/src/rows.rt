//! Rows: their values, how they are written, and how they are read.

pub(crate) mod lending;
pub(crate) mod row;
pub(crate) mod row_body;
pub(crate) mod row_reading;
pub(crate) mod row_ref;
pub(crate) mod uuids;
