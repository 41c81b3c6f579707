//! The records of a log: what each says, and what lists of them come to.
//!
//! `Record` is a position, an xid and a `Body`: a change, a message, a Commit, an Abort. `logged.rt` is a change as a record
//! keeps it. What lists of records come to (a well-formed log, its transactions, where reading may begin again) stands in
//! specs/.
//!
//! Read `record.rt`, specs/Log.antt, specs/Restart.antt. Above, its laws are used: a log has one reading
//! (`a_log_has_one_reading`), what stands before the restart position may be skipped (`a_start_may_skip`), and that position
//! never goes back (`a_restart_moves_forward`).
#![tactic(auto)]

mod logged;
mod reading;
mod record;
mod slices;

pub use logged::LoggedChange;
pub use reading::{a_log_has_one_reading, a_restart_moves_forward, a_start_may_skip};
pub use record::{Body, FIRST_POSITION, FIRST_XID, Record};
pub use slices::part;
