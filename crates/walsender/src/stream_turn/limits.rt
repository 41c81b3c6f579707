//! The limits of a turn.

/// The most records that a turn of a stream fetches.
pub const TURN_RECORDS: usize = 1_024;
