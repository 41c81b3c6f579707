//! CommandComplete, the end of a command that was carried out: its type.

use pqformat::Text;

/// The type byte of CommandComplete.
pub const COMMAND_COMPLETE: u8 = b'C';

/// CommandComplete (PostgreSQL 15, 55.7).
///
/// ```text
/// Byte1('C') | Int32 length, itself counted | String tag
/// ```
#[derive(Debug, Drop)]
pub struct CommandComplete {
    pub tag: Text,
}
