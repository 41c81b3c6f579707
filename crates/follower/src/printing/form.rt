//! The two forms of lines.

/// How messages are printed, a line each.
#[derive(Clone, Copy, PartialEq, Eq)]
pub enum Form {
    /// A line for people, as `message_lines::render` has it.
    Text,
    /// An object of JSON, as users of wal2json know it, and one more line where the stream ends.
    Json,
}
