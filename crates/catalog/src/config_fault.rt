//! Why a text is no catalogue.

ghost use Rattle.std.specs.Prelude.{◌≡◌};
ghost use Rattle.catalog.specs.declared.config_fault.CatalogFault.TheVariants.{Memory};

use std::alloc::{AllocError, AllocFailed};
use std::fmt;
use thiserror::Error;

/// A member of a table of a configuration.
#[derive(Clone, Copy, Debug, PartialEq, Eq)]
pub enum CatalogMember {
    Oid,
    Schema,
    Name,
    Identity,
    Key,
    Columns,
    /// One that no table has.
    Other,
}

impl fmt::Display for CatalogMember {
    fn fmt<W: fmt::Write>(&self, f: &mut fmt::Formatter<W>) -> fmt::Result {
        f.write_str(match self {
            CatalogMember::Oid => "oid: a number from 1 to 4294967295 that no other table has",
            CatalogMember::Schema => "schema: a name",
            CatalogMember::Name => "name: a name that no other table of the schema has",
            CatalogMember::Identity => "identity: default, nothing or full",
            CatalogMember::Key => "key: a list of columns, each once",
            CatalogMember::Columns =>
                "columns: a list of 1 to 64 pairs of a name and a type, each name once",
            CatalogMember::Other =>
                "oid, schema, name, identity, key, columns, and no other member",
        })
    }
}

/// What is wrong with the tables of a configuration.
#[derive(Clone, Copy, Debug, PartialEq, Eq)]
pub enum CatalogMisfit {
    /// `table` is something else than a list.
    NoList,
    /// Over 256 tables.
    TooMany,
    /// This member of this table; the first table is number 1.
    Table(usize, CatalogMember),
}

impl fmt::Display for CatalogMisfit {
    fn fmt<W: fmt::Write>(&self, f: &mut fmt::Formatter<W>) -> fmt::Result {
        match self {
            CatalogMisfit::NoList => f.write_str("table is no list of tables"),
            CatalogMisfit::TooMany => f.write_str("over 256 tables"),
            CatalogMisfit::Table(number, member) => write!(f, "table {number} wants {member}"),
        }
    }
}

/// Why a text is no catalogue.
#[derive(Clone, Copy, Debug, PartialEq, Eq, Error)]
pub enum CatalogFault {
    #[error("N1: line {0} is no TOML")]
    NotToml(usize),
    #[error("N1: {0}")]
    BadTables(CatalogMisfit),
    #[error("N2: out of memory")]
    Memory,
}

impl From<AllocError> for CatalogFault {
    ghost from_gives = { λ _ e. e ≡ Memory };

    fn from(_e: AllocError) -> CatalogFault {
        CatalogFault::Memory
    }
}

impl<T: Drop> From<AllocFailed<T>> for CatalogFault {
    ghost from_gives = { λ _ e. e ≡ Memory };

    fn from(_e: AllocFailed<T>) -> CatalogFault {
        CatalogFault::Memory
    }
}
