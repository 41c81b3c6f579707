//! A word, what one frame of the stream says: a keepalive, or a logical message in its XLogData.

use crate::logical::Logical;

/// What one CopyData frame of the stream says (PostgreSQL 15, 55.4).
#[derive(Debug, Drop)]
pub enum CopyBothMessage {
    Keepalive(Keepalive),
    XLogData(XLogData),
}

/// A primary keepalive: `Byte1('k') | Int64 position | Int64 clock | Byte1 ask`.
#[derive(Clone, Copy, Debug)]
pub struct Keepalive {
    /// The end of what the server has read of the log.
    pub position: u64,
    /// The server's clock, in microseconds since 2000-01-01.
    pub clock: i64,
    /// Whether the client should answer at once.
    pub ask: bool,
}

/// A logical message in its XLogData: `Byte1('w') | Int64 start | Int64 end | Int64 clock | message`.
#[derive(Debug, Drop)]
pub struct XLogData {
    /// The position of the message.
    pub start: u64,
    /// The position again.
    pub end: u64,
    /// The server's clock, in microseconds since 2000-01-01.
    pub clock: i64,
    pub message: Logical,
}
