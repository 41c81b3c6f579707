//! CopyFail, the end of copy mode by a client that couldn't go on: its type.

use pqformat::Text;

/// The type byte of CopyFail.
pub const COPY_FAIL: u8 = b'f';

/// CopyFail (PostgreSQL 15, 55.7).
///
/// ```text
/// Byte1('f') | Int32 length, itself counted | String reason
/// ```
#[derive(Debug, Drop)]
pub struct CopyFail {
    pub reason: Text,
}
