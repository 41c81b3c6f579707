//! What the lines of connections ask.

/// What a line does to a connection's sender.
#[derive(Clone, Copy)]
pub enum Action {
    /// Up to so many records are fetched and fed under this clock.
    Read(u32, i64),
    /// A keepalive under this clock that doesn't ask for an answer.
    Keepalive(i64),
    /// Up to so many bytes leave the sender.
    Drain(u32),
    /// The sender ends.
    Cut,
}
