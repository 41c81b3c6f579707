//! Rows that are there before a stream begins: asked for as PostgreSQL's own subscribers do, within one transaction of the server
//! that also makes the slot.

pub(crate) mod asked_rows;
pub(crate) mod copied_row;
pub(crate) mod copied_table;
pub(crate) mod made_frames;
pub(crate) mod printed_copy;
pub(crate) mod questions;
pub(crate) mod row_lines;
pub(crate) mod session;
pub(crate) mod table_copy;
