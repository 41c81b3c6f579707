//! The rows of tables in memory, each with who changed it, so that what a transaction did can be undone.
//!
//! `Store` holds the rows of each table by key (`places/slots.rt`, `places/key.rt`); `judging.rt` refuses a change whose row is held by
//! another transaction, is missing, or is there already; `journals.rt` keep what was there before, for a rollback.
//!
//! Read `store.rt`, then `judging.rt`. Above, `txlog` uses one contract: the rows are those that the changes made and not undone
//! leave, and a refused change leaves them as they were.
#![tactic(auto)]

mod emptying;
mod journals;
mod judging;
mod message;
mod places;
mod snapshot;
mod store;
mod store_fault;

pub use message::message_of;
pub use snapshot::Snapshot;
pub use store::Store;
pub use store_fault::StoreFault;
