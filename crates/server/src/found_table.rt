//! What a backend tells of a table that is to be copied.

use pqformat::Text;

/// A table: its OID, and what names its rows in changes.
#[derive(Clone, Copy, Debug, PartialEq, Eq)]
pub struct FoundTable {
    pub oid: u32,
    pub identity: TableIdentity,
}

/// The replica identity of a table (PostgreSQL 15, 53.11, `relreplident`): its primary key, nothing, or the whole row.
#[derive(Clone, Copy, Debug, PartialEq, Eq)]
pub enum TableIdentity {
    Default,
    Nothing,
    Full,
}

/// A column of a table, with the OID of its type.
#[derive(Debug, Drop)]
pub struct TableAttribute {
    pub name: Text,
    pub type_oid: u32,
    /// Whether it belongs to the replica identity; None where that is no index.
    pub is_identity: Option<bool>,
}
