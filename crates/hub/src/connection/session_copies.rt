//! What a session copies, out of which snapshot.

use server_state::{ServerState, TableCopy};
use shared_log::LogName;
use slots::SlotName;
use std::sync::Wait;

/// The snapshot of a session's transaction block, by its number, and the copy that runs. `release` lets both go.
#[derive(Drop)]
pub(crate) struct SessionCopies {
    pub snapshot: Option<u64>,
    pub copy: Option<TableCopy>,
}

impl SessionCopies {
    /// Of a session that copies nothing.
    pub(crate) fn none() -> Self {
        SessionCopies {
            snapshot: None,
            copy: None,
        }
    }

    /// Lets go what there is.
    pub(crate) fn release<L: LogName + SlotName, R: Wait>(
        &mut self,
        rt: &R,
        server_state: &ServerState<L>,
    ) {
        self.copy = None;
        if let Some(snapshot) = self.snapshot {
            self.snapshot = None;
            server_state.release_snapshot(rt, snapshot);
        }
    }
}
