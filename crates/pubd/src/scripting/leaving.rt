//! What a script leaves after.

use hub::{Hub, Left};
use schedule::Sessions;
use shared_log::LogName;
use slots::SlotName;
use std::sync::Wait;
use std::time::Clock;

/// Transactions in progress are left as they are, so that nothing of them commits.
pub(crate) fn leave_all<L, R>(rt: &R, hub: &Hub<L>, sessions: Sessions)
where
    L: LogName + SlotName,
    R: Wait + Clock,
{
    let writing = hub.write(rt);
    sessions.leave_all(&writing.publisher);
    let _ = writing.end(Left::Nothing);
}
