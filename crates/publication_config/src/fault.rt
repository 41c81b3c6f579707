//! Why publications are not read or not selected.

ghost use Rattle.std.specs.Prelude.{◌≡◌};
ghost use Rattle.publication_config.specs.declared.fault.PubFault.TheVariants.{Memory};
ghost use Rattle.publication_config.specs.Faults.{publication_code_of};

use crate::document::config_fault::{PublicationMisfit, TablePlace};
use rowfilter::FilterFault;
use std::alloc::{AllocError, AllocFailed};
use thiserror::Error;

/// Why publications were not read from a configuration, or not selected.
#[derive(Clone, Copy, Debug, PartialEq, Eq, Error)]
pub enum PubFault {
    #[error("P1: no publication has this name")]
    Unknown,
    #[error("P2: the publications have different column lists for one table")]
    ListConflict,
    #[error("P3: {0}: the filter names a column outside the identity, and updates or deletes are published")]
    FilterOutsideIdentity(TablePlace),
    #[error("P4: {0}: the columns lack one of the identity, or it has all, and updates or deletes are published")]
    ListWithoutIdentity(TablePlace),
    #[error("P5: {0}: the table has no identity, and updates or deletes are published")]
    NoIdentity(TablePlace),
    #[error("P6: line {0} is no TOML")]
    NotToml(usize),
    #[error("P6: {0}")]
    BadToml(PublicationMisfit),
    #[error("P7: out of memory")]
    Memory,
    #[error("P8: {0}: {1}")]
    BadFilter(TablePlace, FilterFault),
}

impl PubFault {
    pub fn code(&self) -> &'static str
        ensures { result.now ≡ publication_code_of self.now }
    {
        match self {
            PubFault::Unknown => "P1",
            PubFault::ListConflict => "P2",
            PubFault::FilterOutsideIdentity(_) => "P3",
            PubFault::ListWithoutIdentity(_) => "P4",
            PubFault::NoIdentity(_) => "P5",
            PubFault::NotToml(_) | PubFault::BadToml(_) => "P6",
            PubFault::Memory => "P7",
            PubFault::BadFilter(_, _) => "P8",
        }
    }
}

impl From<AllocError> for PubFault {
    ghost from_gives = { λ _ e. e ≡ Memory };

    fn from(_e: AllocError) -> PubFault {
        PubFault::Memory
    }
}

impl<T: Drop> From<AllocFailed<T>> for PubFault {
    ghost from_gives = { λ _ e. e ≡ Memory };

    fn from(_e: AllocFailed<T>) -> PubFault {
        PubFault::Memory
    }
}
