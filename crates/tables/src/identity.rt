//! The replica identity of a table.

/// The replica identity of a table: which columns of an old row a subscriber is sent (PostgreSQL 15, 31.1).
#[derive(Clone, Copy, Debug, PartialEq, Eq)]
pub enum Identity {
    /// The primary key.
    Default,
    Nothing,
    /// Every column.
    Full,
}
