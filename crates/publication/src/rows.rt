//! Rows as they are read and judged.

pub(crate) mod judging;
pub(crate) mod passing;
pub(crate) mod row_reading;
