//! The name of a table, and its columns that are published.

use pqformat::{Items, Text};

/// The name of a table, with that of its schema.
#[derive(Debug, Drop)]
pub struct TableName {
    pub schema: Text,
    pub name: Text,
}

/// A table, with the names of its columns that are published, in the table's order.
#[derive(Debug, Drop)]
pub struct TableColumns {
    pub table: TableName,
    pub columns: Items<Text>,
}
