//! The subscriber's side of a stream: bytes in, and each published transaction applied once.
//!
//! `Applier::take` takes bytes in any cuts, word by word (`reading.rt`), and keeps what is whole as a list of `Applied`
//! transactions (`progress.rt`); `judging.rt` refuses a change that doesn't fit what was told of its table.
//!
//! Read `applier.rt`, `progress.rt`, then specs/Words.antt. Above, one contract is used: over any beginning of a stream exactly
//! the whole transactions from the position on are gained, each once (`follows`).
#![tactic(auto)]

mod applier;
mod fault;
mod judging;
mod note;
mod open_transaction;
mod progress;
mod reading;
mod status;

pub use applier::Applier;
pub use fault::ClientFault;
pub use pgoutput::{Published as Applied, PublishedChange};
