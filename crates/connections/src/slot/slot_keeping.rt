//! Whether the log is kept for a slot.

/// Whether the log keeps the records that a slot needs: `wal_status` of PostgreSQL's pg_replication_slots (PostgreSQL 15, 54.19).
#[derive(Clone, Copy, PartialEq, Eq)]
pub enum SlotKeeping {
    /// No slot is there.
    Nothing,
    /// They are kept.
    Reserved,
    /// The slot held more than it may, and was given up.
    Lost,
}
