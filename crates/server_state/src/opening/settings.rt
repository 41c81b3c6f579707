//! What a hub is told once.

use std::time::Duration;

/// What is told of a hub before it opens, and stays.
#[derive(Clone, Copy)]
pub struct HubSettings {
    /// For how long the client of a stream may be silent: 60 seconds, unless it is set. Zero is for ever.
    pub wal_sender_timeout: Duration,
    /// For how long a connection may take to say its startup: 60 seconds, unless it is set. Zero is for ever.
    pub authentication_timeout: Duration,
    /// How many connections may be served at once: 100, unless it is set.
    pub max_connections: u32,
    /// After how many connections no more are taken, and the server ends with the last of them: any number, unless it is set.
    pub connections: Option<u32>,
    /// How many slots there may be at once: 16, unless it is set, and at most 1,024.
    pub max_replication_slots: u32,
    /// How many streams may run at once: 16, unless it is set, and at most 1,024.
    pub max_wal_senders: u32,
    /// How many chunks of 16,384 bytes the changes of the transactions in progress may take in a stream: 64, unless it is set.
    pub chunks: u32,
    /// Whether the questions of PostgreSQL's own clients are answered, which subscribers (CREATE SUBSCRIPTION) and pg_recvlogical
    /// ask before and beside commands: false, unless it is set. Then any text that is no command is a syntax error.
    pub answers_postgresql: bool,
    /// Whether a stream may start ahead of all that its slot has confirmed and sent: false, unless it is set. A position of there comes
    /// of another run, whose positions mean nothing here.
    pub allows_start_ahead: bool,
    /// How many records a slot may hold before it is given up: any number, unless it is set. Its stream ends (57P01), and none of it
    /// begins any more (55000).
    pub max_slot_keep: Option<usize>,
    /// Whether a commit waits until it is on the disk, where the log is kept on one: true, unless it is set. Streams send what is there
    /// all the same (PostgreSQL 15, 20.5.1: synchronous_commit).
    pub synchronous_commit: bool,
    /// How many records the log has room for at once.
    pub(crate) capacity: usize,
}
