//! How many senders there may be.

/// How many senders may run at once. Each has a reader of its own.
pub const MAX_SENDERS: usize = 16;
