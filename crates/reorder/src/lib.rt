//! Changes regrouped by transaction: what a log interleaves, a subscriber gets whole at each commit.
//!
//! `Reorder::take` takes records in the order of the log. `RecordOutcome::Ready` comes with a Commit: the changes of its transaction,
//! with those of its subtransactions, and without what was rolled back. They lie in an arena until they are given back
//! (`CommittedChanges`).
//!
//! Read `reorder.rt`, `ready.rt`, then `strands.rt`. Above, `walsender` uses one contract: what a Commit brings are exactly its
//! transaction's kept changes, in order, also where only a section of the log was read.
#![tactic(auto)]

mod fault;
mod places;
mod ready;
mod reorder;
mod strands;
mod subxact_ancestors;

pub use fault::ReorderFault;
pub use ready::{CommittedChanges, RecordOutcome};
pub use reorder::Reorder;
