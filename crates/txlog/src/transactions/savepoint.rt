//! One open savepoint.

/// An open savepoint: its xid, and the store's mark where it was set, which counts the changes of its transaction that stood
/// then.
#[derive(Clone, Copy, PartialEq, Eq)]
pub struct Savepoint {
    pub xid: u32,
    pub mark: usize,
}
