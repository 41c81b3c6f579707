//! The log of a publisher: what its sessions write, in one order. `Publisher` has the calls; crate `wal` has the records that
//! they write.
//!
//! Begin, change, savepoint, rollback, commit, abort and message are calls of `Publisher`, each in the file of its name
//! (`changing.rt`, `transactions/savepoint.rt`, `noting.rt`, `transactions/running.rt`). `Receipt` tells where a commit stands. A log
//! that was lost goes on by its records: the `replay_` calls and `abort_all` of `replaying.rt`.
//!
//! Read `publisher.rt`, `changing.rt`, `transactions/tx.rt`. Above, one contract is used: between any two calls the log is well formed and
//! the rows are its own, and a call writes exactly its record or changes nothing.
#![tactic(auto)]

mod answers;
mod changing;
mod giving;
mod limits;
mod noting;
mod publisher;
mod publisher_parts;
mod replaying;
mod snapshots;
mod transactions;

pub use answers::fault::SessionFault;
pub use answers::receipt::Receipt;
pub use answers::replay_fault::ReplayFault;
pub use answers::snapshot_fault::SnapshotFault;
pub use giving::kept_place;
pub use limits::{MAX_DEPTH, MAX_LIVE, MAX_READERS, MAX_RECORDS, MOST_RECORDS};
pub use publisher::Publisher;
pub use publisher_parts::PublisherParts;
pub use snapshots::Piece;
pub use transactions::rowless::a_message_changes_no_row;
pub use transactions::tx::Tx;
