//! The entries of a log's history.

use wal::Record;

/// A step of the history of a log. No value of it is made: the history stands in the proofs alone, and what threads share
/// is its length.
#[derive(Drop)]
pub enum Entry {
    /// The record is about to stand at the log's end, in the place of one that was offered and not confirmed.
    Offered(Record),
    /// The record that was offered last stands in the log.
    Confirmed,
}
