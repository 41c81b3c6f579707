//! A list of entries in an arena.

use std::marker::Model;

/// A list of entries in an arena. It goes by its first chunk, which it gets with its first entry, and must be given back: one that is
/// let go keeps its chunks as long as its arena stands.
#[derive(Drop)]
pub struct Strand {
    pub(crate) head: Option<usize>,
}

impl Model for Strand {
    ghost use Rattle.std.specs.Prelude.{ℕ, Option};

    ghost Value = { Option ℕ };

    ghost view = { λ s. s.head };
}
