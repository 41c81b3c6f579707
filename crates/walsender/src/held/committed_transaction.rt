//! A committed transaction that is still to be made into bytes.

use crate::commit_frames::header::Header;
use reorder::CommittedChanges;

/// What is left to be made of a committed transaction: its changes from the next one on, and its Commit. Its Begin is made already.
#[derive(Drop)]
pub(crate) struct CommittedTransaction {
    pub(crate) ready: CommittedChanges,
    /// The place of the next change among those that are ready.
    pub(crate) next: usize,
    /// The clock of all its frames.
    pub(crate) clock: i64,
    /// How many of the bytes that are made go out before its changes, and after those of the transaction before it.
    pub(crate) before: usize,
    /// What its Commit tells.
    pub(crate) header: Header,
}
