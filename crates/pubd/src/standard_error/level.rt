//! How much a server tells beside its clients.

/// How much is told, by the names of PostgreSQL's `log_min_messages` (PostgreSQL 15, 20.8.2).
#[derive(Clone, Copy, PartialEq, Eq)]
pub enum Level {
    /// How each connection has ended, and all words of what was refused.
    Info,
    /// How those have ended that their clients didn't close, which commands were refused, and which could not be taken.
    Warning,
    /// Which connections could not be taken.
    Error,
}

impl Level {
    /// The level of this name. None: there is none.
    pub fn of(text: &str) -> Option<Self> {
        match text {
            "info" => Some(Level::Info),
            "warning" => Some(Level::Warning),
            "error" => Some(Level::Error),
            _ => None,
        }
    }
}
