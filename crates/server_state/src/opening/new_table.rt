//! A table to publish, told by values.

use tables::Identity;

/// A table to publish, as `[[table]]` of a configuration tells it:
///
/// ```text
/// NewTable::new("shop", "stock").columns(&[("article", "text"), ("pieces", "int4")]).key(&["article"])
/// ```
#[derive(Clone, Copy)]
pub struct NewTable<'a> {
    pub(crate) schema: &'a str,
    pub(crate) name: &'a str,
    pub(crate) columns: &'a [(&'a str, &'a str)],
    pub(crate) key: &'a [&'a str],
    pub(crate) identity: Identity,
}

impl<'a> NewTable<'a> {
    /// A table of no columns, whose replica identity is its key.
    pub fn new(schema: &'a str, name: &'a str) -> Self {
        NewTable {
            schema,
            name,
            columns: &[],
            key: &[],
            identity: Identity::Default,
        }
    }

    /// With these columns, each a name and a type by its name, as `int4` and `numeric(10,2)`.
    pub fn columns(self, columns: &'a [(&'a str, &'a str)]) -> Self {
        NewTable { columns, ..self }
    }

    /// With a primary key of these columns.
    pub fn key(self, key: &'a [&'a str]) -> Self {
        NewTable { key, ..self }
    }

    /// With this replica identity (PostgreSQL 15, ALTER TABLE, REPLICA IDENTITY).
    pub fn identity(self, identity: Identity) -> Self {
        NewTable { identity, ..self }
    }
}
