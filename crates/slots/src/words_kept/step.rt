//! What a seat keeps of its own steps. No value of these types is made: they stand in proofs alone.

use std::collections::LinkedList;

/// The six kinds of step. The first two, `Release` and `Retire` are steps on the word that says how a place stands, the others on its position.
pub enum SlotKind {
    Create,
    Claim,
    Read,
    Raise,
    Release,
    Retire,
}

/// One step on a place: the word that was found, and the word that was left.
pub struct SlotStep {
    pub kind: SlotKind,
    pub place: u64,
    pub found: u64,
    pub left: u64,
}

/// A seat's view: its number, how many seats there are (which seat 0 alone knows; the others say 0), and its steps in order.
pub struct SeatView {
    pub number: u64,
    pub seats: u64,
    pub steps: LinkedList<SlotStep>,
}
