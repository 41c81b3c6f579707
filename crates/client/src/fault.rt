//! The faults of an applier, K1 to K5 and K8.

ghost use Rattle.std.specs.Prelude.{◌≡◌};
ghost use Rattle.client.specs.declared.fault.ClientFault.TheVariants.{Memory};

use std::alloc::{AllocError, AllocFailed};
use thiserror::Error;

/// Why an applier takes no more.
#[derive(Clone, Copy, Debug, PartialEq, Eq, Error)]
pub enum ClientFault {
    #[error("K1: the server sent what is no frame of a stream")]
    Frame,
    #[error("K2: a message is out of its order")]
    Order,
    #[error("K3: the table was not told")]
    UnknownRelation,
    #[error("K4: the server reported an error")]
    Server,
    #[error("K5: out of memory")]
    Memory,
    /// A follower has K6 and K7 besides.
    #[error("K8: a commit does not end past its start")]
    CommitEnd,
}

impl From<AllocError> for ClientFault {
    ghost from_gives = { λ _ e. e ≡ Memory };

    fn from(_e: AllocError) -> ClientFault {
        ClientFault::Memory
    }
}

impl<T: Drop> From<AllocFailed<T>> for ClientFault {
    ghost from_gives = { λ _ e. e ≡ Memory };

    fn from(_e: AllocFailed<T>) -> ClientFault {
        ClientFault::Memory
    }
}
