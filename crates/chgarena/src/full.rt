//! The refusal of an arena.

use thiserror::Error;

/// An entry found no room: its strand's last chunk has too little left, and no chunk is free.
#[derive(Clone, Copy, Debug, PartialEq, Eq, Error)]
#[error("no chunk of the arena is free")]
pub struct Full;
