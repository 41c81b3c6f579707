//! What the writer knows of a record beside its body.

/// What the writer knows beside its body of a record that goes to the log's end.
#[derive(Clone, Copy, Drop)]
pub(crate) struct Outline {
    pub start: u64,
    pub end: u64,
    /// Its transaction, unless it is a note.
    pub top: Option<u32>,
    /// Whether it ends its transaction.
    pub is_last: bool,
}
