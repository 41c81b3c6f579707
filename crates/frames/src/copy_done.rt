//! CopyDone, the end of copy mode, as both sides send it: a frame with an empty body (PostgreSQL 15, 55.7).

/// The type byte of CopyDone.
pub const COPY_DONE: u8 = b'c';
