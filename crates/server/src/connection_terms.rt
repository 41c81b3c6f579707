//! How a connection is served: its number, and what it answers.

/// Which queries are answered.
#[derive(Clone, Copy, Debug, PartialEq, Eq)]
pub enum Dialect {
    /// The commands of the replication protocol alone.
    Commands,
    /// Beside them the questions of PostgreSQL's own clients.
    Questions,
}

/// How a connection is served.
#[derive(Clone, Copy, Debug, PartialEq, Eq)]
pub struct ConnectionTerms {
    /// The number that the client is told.
    pub number: u32,
    pub dialect: Dialect,
}
