//! The limits of a log and of its transactions.

/// The greatest number of records that a log may be made for, of those that lie in memory at once.
pub const MAX_RECORDS: usize = 1_048_576;

/// The greatest number of records that a log may ever have, by which xids are of 32 bits.
pub const MOST_RECORDS: usize = 4_000_000_000;

/// The greatest number of live transactions.
pub const MAX_LIVE: usize = 256;

/// The greatest number of open savepoints of a transaction.
pub const MAX_DEPTH: usize = 16;

/// The greatest number of readers of a log.
pub const MAX_READERS: usize = 2048;
