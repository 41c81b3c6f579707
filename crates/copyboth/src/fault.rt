//! Why a body could not be read.

use thiserror::Error;

/// What is wrong with a body inside CopyData.
#[derive(Clone, Copy, Debug, PartialEq, Eq, Error)]
pub enum CopyFault {
    #[error("B1: the body ends inside a field")]
    Short,
    #[error("B2: no body has this kind byte")]
    UnknownKind,
    #[error("B3: bytes are left over behind the body")]
    Trailing,
}
