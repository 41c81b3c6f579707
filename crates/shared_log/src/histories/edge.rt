//! Where a copy of the log begins in memory.

/// The place of the first record that lies in memory: those before it were given back. Beside it lies what they said of it.
#[derive(Clone, Copy, Drop)]
pub struct Edge {
    pub(crate) place: usize,
    /// The place from which whoever starts at the edge begins to read.
    pub(crate) restart: usize,
    /// Where the record before the edge ends.
    pub(crate) position: u64,
}
