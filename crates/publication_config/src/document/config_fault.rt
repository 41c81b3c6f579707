//! Why a text names no publications.

ghost use Rattle.std.specs.Prelude.{◌≡◌};
ghost use Rattle.publication_config.specs.declared.document.config_fault.UnreadPublication.TheVariants.{Memory};

use rowfilter::FilterFault;
use std::alloc::{AllocError, AllocFailed};
use std::fmt;

/// A table of a publication of a configuration: the numbers of both, from 1. The tables of a publication of schemas, or of all tables, are
/// counted in the order of the catalogue.
#[derive(Clone, Copy, Debug, PartialEq, Eq)]
pub struct TablePlace {
    pub publication: usize,
    pub table: usize,
}

impl fmt::Display for TablePlace {
    fn fmt<W: fmt::Write>(&self, f: &mut fmt::Formatter<W>) -> fmt::Result {
        write!(f, "publication {}, table {}", self.publication, self.table)
    }
}

/// A member of a publication of a configuration.
#[derive(Clone, Copy, Debug, PartialEq, Eq)]
pub enum PublicationMember {
    Name,
    Publish,
    Tables,
    Schemas,
    AllTables,
    /// None of the three before, or more than one of them.
    OneOfThree,
    /// One that no publication has.
    Other,
}

impl fmt::Display for PublicationMember {
    fn fmt<W: fmt::Write>(&self, f: &mut fmt::Formatter<W>) -> fmt::Result {
        f.write_str(match self {
            PublicationMember::Name => "name: a name that no other publication has",
            PublicationMember::Publish => "publish: a list of insert, update, delete and truncate",
            PublicationMember::Tables => "tables: a list of one or more tables",
            PublicationMember::Schemas =>
                "schemas: a list of one or more schemas of tables, each once",
            PublicationMember::AllTables => "all_tables: true",
            PublicationMember::OneOfThree => "exactly one of tables, schemas and all_tables",
            PublicationMember::Other =>
                "name, publish, one of tables, schemas and all_tables, and no other member",
        })
    }
}

/// A member of a table of a publication.
#[derive(Clone, Copy, Debug, PartialEq, Eq)]
pub enum TableMember {
    Name,
    Where,
    Columns,
    /// One that no table of a publication has.
    Other,
}

impl fmt::Display for TableMember {
    fn fmt<W: fmt::Write>(&self, f: &mut fmt::Formatter<W>) -> fmt::Result {
        f.write_str(match self {
            TableMember::Name =>
                "name: schema and name of a table, joined by a dot, that the publication has once",
            TableMember::Where => "where: the text of a filter",
            TableMember::Columns =>
                "columns: a list of one or more columns of the table, each once",
            TableMember::Other => "name, where, columns, and no other member",
        })
    }
}

/// What is wrong with the publications of a configuration.
#[derive(Clone, Copy, Debug, PartialEq, Eq)]
pub enum PublicationMisfit {
    /// `publication` is something else than a list.
    NoList,
    /// This member of this publication; the first publication is number 1.
    Publication(usize, PublicationMember),
    /// This member of this table of a publication.
    Table(TablePlace, TableMember),
}

impl fmt::Display for PublicationMisfit {
    fn fmt<W: fmt::Write>(&self, f: &mut fmt::Formatter<W>) -> fmt::Result {
        match self {
            PublicationMisfit::NoList => f.write_str("publication is no list of publications"),
            PublicationMisfit::Publication(number, member) => write!(
                f,
                "publication {number} wants {member}"
            ),
            PublicationMisfit::Table(place, member) => write!(f, "{place} wants {member}"),
        }
    }
}

/// Why a document names no publications.
#[derive(Clone, Copy)]
pub(crate) enum ConfigRefusal {
    Misfit(PublicationMisfit),
    BadFilter(TablePlace, FilterFault),
    NoIdentity(TablePlace),
    ListWithoutIdentity(TablePlace),
    FilterOutsideIdentity(TablePlace),
}

/// Why a part of a configuration was not read.
#[derive(Clone, Copy)]
pub(crate) enum UnreadPublication {
    Refused(ConfigRefusal),
    Memory,
}

impl From<AllocError> for UnreadPublication {
    ghost from_gives = { λ _ e. e ≡ Memory };

    fn from(_e: AllocError) -> UnreadPublication {
        UnreadPublication::Memory
    }
}

impl<T: Drop> From<AllocFailed<T>> for UnreadPublication {
    ghost from_gives = { λ _ e. e ≡ Memory };

    fn from(_e: AllocFailed<T>) -> UnreadPublication {
        UnreadPublication::Memory
    }
}
