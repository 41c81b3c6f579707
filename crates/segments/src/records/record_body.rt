//! What a record says, as it is read from a file of the log.

use tables::{Change, Message};

/// The same as `Body` of `wal`, whose changes are read.
#[derive(Debug, Drop)]
pub enum RecordBody {
    /// A subtransaction and its parent.
    Assign(u32, u32),
    /// The xid that made a change, and the change.
    Change(u32, Change),
    /// A subtransaction that is rolled back.
    AbortSub(u32),
    /// A transaction that is rolled back.
    Abort(u32),
    /// A transaction, and when it committed, in microseconds since 2000-01-01.
    Commit(u32, i64),
    /// A message outside of all transactions.
    Note(Message),
}
