//! A published transaction or note, what a subscriber is to apply: its place in the log, its time, and its changes as messages.

use crate::logical::Logical;
use pqformat::Items;

/// A transaction as it is published; or a note, a message of the log outside of all transactions.
#[derive(Debug, Drop)]
pub struct Published {
    /// Whether it is a note: then its one change is its message, and its time and its xid are 0.
    pub is_note: bool,
    /// The position at which the commit record starts, or the note's.
    pub start: u64,
    /// The position at which that record ends.
    pub end: u64,
    /// The commit time, in microseconds since 2000-01-01.
    pub time: i64,
    pub xid: u32,
    pub changes: Items<PublishedChange>,
}

/// A change as it is published.
#[derive(Debug, Drop)]
pub struct PublishedChange {
    /// The position at which the change's record starts.
    pub position: u64,
    pub message: Logical,
}
