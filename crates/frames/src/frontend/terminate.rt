//! Terminate, the end of a session: a frame with an empty body (PostgreSQL 15, 55.7).

/// The type byte of Terminate.
pub const TERMINATE: u8 = b'X';
