//! The records of the log.

ghost use Rattle.std.specs.Prelude.{◌≡◌, ◌+◌, ◌≤◌, ◌^◌};
ghost use Rattle.tables.specs.declared.changes.change_body.TheConstants.{MAX_BODY_LENGTH};
ghost use Rattle.wal.specs.Log.{payload_length, size_of};

use crate::logged::LoggedChange;

/// The position at which the first record starts, 0/1000000.
pub const FIRST_POSITION: u64 = 0x100_0000;

/// The xid of the first transaction.
pub const FIRST_XID: u32 = 700;

/// A record of the log. It starts where the one before it ends; both are byte positions of the log. Its size is 16, and its
/// payload rounded up to a multiple of 8. In a payload an xid has 4 bytes and a time 8.
#[derive(Debug, Drop)]
pub struct Record {
    pub start: u64,
    pub end: u64,
    pub body: Body,
}

/// What happened, and under which xid.
#[derive(Debug, Drop)]
pub enum Body {
    /// A subtransaction, from a savepoint on, and its parent.
    Assign(u32, u32),
    /// The innermost open subtransaction, or the transaction, and what it changed.
    Change(u32, LoggedChange),
    /// A subtransaction that is rolled back, with all subtransactions under it.
    AbortSub(u32),
    /// A transaction that is rolled back.
    Abort(u32),
    /// A transaction, and when it committed, in microseconds since 2000-01-01.
    Commit(u32, i64),
    /// A message outside of all transactions. The change is one; in its payload the xid is 0.
    Note(LoggedChange),
}

impl Body {
    /// The size of a record with this body in bytes.
    pub fn size(&self) -> u64
        ensures value { result ≡ size_of self.now }
        ensures bounded { result ≤ 2 ^ 14 }
    {
        16 + (self.payload_len() + 7) / 8 * 8
    }

    fn payload_len(&self) -> u64
        ensures value { result ≡ payload_length self.now }
        ensures bounded { result ≤ 4 + MAX_BODY_LENGTH }
    {
        match self {
            Body::Assign(_, _) => 8,
            Body::Change(_, change) => 4 + change.body_len() as u64,
            Body::AbortSub(_) | Body::Abort(_) => 4,
            Body::Commit(_, _) => 12,
            Body::Note(message) => 4 + message.body_len() as u64,
        }
    }
}
