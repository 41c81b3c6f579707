//! Where a change lies in the arena.

use std::marker::Model;

/// Where a change lies: its position in the log, its xid, and its place among the entries of that xid.
#[derive(Drop)]
pub(crate) struct Spot {
    pub(crate) position: u64,
    pub(crate) xid: u32,
    pub(crate) place: usize,
    /// The chunk of the arena in which the change was found, where it is looked for first.
    pub(crate) near: usize,
}

impl Model for Spot {
    ghost use Rattle.reorder.specs.Spots.{SpotState};

    ghost Value = { SpotState };

    ghost view = { λ s. record { position = s.position; xid = s.xid; place = s.place } };
}

/// Where a change lies: its xid, its place among the entries of that xid, and the chunk of the arena in which it is looked for first.
#[derive(Drop)]
pub(crate) struct Place {
    pub(crate) xid: u32,
    pub(crate) place: usize,
    pub(crate) near: usize,
}

impl Model for Place {
    ghost use Rattle.reorder.specs.Ready.{PlaceState};

    ghost Value = { PlaceState };

    ghost view = { λ p. record { xid = p.xid; place = p.place } };
}
