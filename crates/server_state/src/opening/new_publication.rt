//! A publication, told by values.

/// A publication, as `[[publication]]` of a configuration tells it, of all operations:
///
/// ```text
/// NewPublication::new("cheap", &[NewMember::new("shop.stock").columns(&["article", "price"]).filter("price < 100")])
/// ```
#[derive(Clone, Copy)]
pub struct NewPublication<'a> {
    pub(crate) name: &'a str,
    pub(crate) members: &'a [NewMember<'a>],
}

impl<'a> NewPublication<'a> {
    pub fn new(name: &'a str, members: &'a [NewMember<'a>]) -> Self {
        NewPublication { name, members }
    }
}

/// A table of a publication.
#[derive(Clone, Copy)]
pub struct NewMember<'a> {
    pub(crate) table: &'a str,
    pub(crate) columns: Option<&'a [&'a str]>,
    pub(crate) filter: Option<&'a str>,
}

impl<'a> NewMember<'a> {
    /// All of a table, which is told by its schema, a dot and its name.
    pub fn new(table: &'a str) -> Self {
        NewMember {
            table,
            columns: None,
            filter: None,
        }
    }

    /// With these columns alone (PostgreSQL 15, 31.4).
    pub fn columns(self, columns: &'a [&'a str]) -> Self {
        NewMember {
            columns: Some(columns),
            ..self
        }
    }

    /// With the rows alone that this condition passes (PostgreSQL 15, 31.3), as `where` of a configuration has it.
    pub fn filter(self, filter: &'a str) -> Self {
        NewMember {
            filter: Some(filter),
            ..self
        }
    }
}
