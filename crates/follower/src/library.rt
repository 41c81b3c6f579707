//! Transactions that are handed out one by one.

pub(crate) mod copied_rows;
pub(crate) mod row;
pub(crate) mod told_tables;
pub(crate) mod transaction;
