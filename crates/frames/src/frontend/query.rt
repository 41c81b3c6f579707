//! Query, a text to be carried out: its type and its limit.

use pqformat::Text;

/// The type byte of Query.
pub const QUERY: u8 = b'Q';

/// The greatest length field of a Query.
pub const QUERY_LIMIT: u32 = 65_536;

/// Query (PostgreSQL 15, 55.7).
///
/// ```text
/// Byte1('Q') | Int32 length, itself counted | String text
/// ```
#[derive(Debug, Drop)]
pub struct Query {
    pub text: Text,
}
