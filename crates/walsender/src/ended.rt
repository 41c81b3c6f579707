//! What is left of a sender that ended.

use publication::Selection;

/// What a sender published and how far it had read when it ended. What it still held is lost.
#[derive(Drop)]
pub struct Ended {
    pub selection: Selection,
    /// The position from which on transactions were sent.
    pub start: u64,
    /// The end of the last record that was read.
    pub position: u64,
}
