//! Why a text is no configuration.

ghost use Rattle.std.specs.Prelude.{◌≡◌};
ghost use Rattle.configuration.specs.declared.config_fault.ConfigFault.TheVariants.{Catalog, Memory, Publications};
ghost use Rattle.configuration.specs.Config.{is_memory, unread_fault};

use crate::server::UnreadServer;
use catalog::CatalogFault;
use publication::PubFault;
use std::alloc::AllocError;
use std::fmt;
use thiserror::Error;

/// What is wrong with a configuration besides its tables and publications.
#[derive(Clone, Copy, Debug, PartialEq, Eq)]
pub enum ServerMisfit {
    /// The text has another member than `table`, `publication` and `server`.
    AnotherPart,
    /// The text has no `server`.
    NoServer,
    Systemid,
    Records,
    Chunks,
    /// One that no server has.
    Other,
}

impl fmt::Display for ServerMisfit {
    fn fmt<W: fmt::Write>(&self, f: &mut fmt::Formatter<W>) -> fmt::Result {
        f.write_str(match self {
            ServerMisfit::AnotherPart =>
                "the configuration wants table, publication, server, and no other member",
            ServerMisfit::NoServer => "the configuration wants a [server]",
            ServerMisfit::Systemid => "[server] wants systemid: a text of at most 65535 bytes",
            ServerMisfit::Records => "[server] wants records: a number from 1 to 1048576",
            ServerMisfit::Chunks => "[server] wants chunks: a number from 1 to 4096",
            ServerMisfit::Other => "[server] wants systemid, records, chunks, and no other member",
        })
    }
}

/// Why a text is no configuration. What is wrong with its tables and publications has a code.
#[derive(Clone, Copy, Debug, PartialEq, Eq, Error)]
pub enum ConfigFault {
    #[error("{0}")]
    Catalog(CatalogFault),
    #[error("{0}")]
    Publications(PubFault),
    #[error("{0}")]
    BadServer(ServerMisfit),
    #[error("out of memory")]
    Memory,
}

impl ConfigFault {
    /// Whether memory ran out, and the text itself may be a configuration.
    pub fn is_memory(&self) -> bool
        ensures { result ≡ is_memory self.now }
    {
        matches!(
            self,
            ConfigFault::Catalog(CatalogFault::Memory)
                | ConfigFault::Publications(PubFault::Memory)
                | ConfigFault::Memory
        )
    }
}

impl From<CatalogFault> for ConfigFault {
    ghost from_gives = { λ fault e. e ≡ Catalog fault };

    fn from(fault: CatalogFault) -> ConfigFault {
        ConfigFault::Catalog(fault)
    }
}

impl From<PubFault> for ConfigFault {
    ghost from_gives = { λ fault e. e ≡ Publications fault };

    fn from(fault: PubFault) -> ConfigFault {
        ConfigFault::Publications(fault)
    }
}

impl From<UnreadServer> for ConfigFault {
    ghost from_gives = { λ unread e. e ≡ unread_fault unread };

    fn from(unread: UnreadServer) -> ConfigFault {
        match unread {
            UnreadServer::Wrong(misfit) => ConfigFault::BadServer(misfit),
            UnreadServer::Memory => ConfigFault::Memory,
        }
    }
}

impl From<AllocError> for ConfigFault {
    ghost from_gives = { λ _ e. e ≡ Memory };

    fn from(_e: AllocError) -> ConfigFault {
        ConfigFault::Memory
    }
}
