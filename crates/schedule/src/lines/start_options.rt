//! What a start asks of its stream.

use pqformat::{Items, Text};

/// What a line `start` says of the stream after slot and position, as the options of START_REPLICATION do (PostgreSQL 15,
/// 55.5).
#[derive(Debug, Drop)]
pub struct StartOptions {
    /// The names of its publications, one at least.
    pub publications: Items<Text>,
    /// Whether the messages that sessions put into the log are told too.
    pub messages: bool,
}
