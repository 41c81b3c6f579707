//! How much of the protocol is read.

/// Which commands are read.
#[derive(Clone, Copy, Debug, PartialEq, Eq)]
pub enum Strictness {
    /// Those that ask for what is served, and nothing else.
    Strict,
    /// Those too that PostgreSQL 15 takes of its own clients (55.4 and 55.5) and that are content with less than they ask
    /// for: versions 2 and 3 of the protocol, whose messages are version 1's where no transaction is streamed or prepared,
    /// and a slot with a snapshot, of which none is named.
    Lenient,
}
