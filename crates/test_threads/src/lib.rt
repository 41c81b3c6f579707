//! Tests of the crates' public calls, and of connections that are served side by side over loopback: what samples of bytes and
//! schedules can't say.
//!
//! Read `fixtures/hub_fixture.rt` and `fixtures/log_fixture.rt`, then any of the others. Each is a scope of its own, with
//! the crate whose calls it makes at its top.
#![tactic(auto)]

#[cfg(test)]
mod drain_calls;
#[cfg(test)]
mod fixtures;
#[cfg(test)]
mod giving_calls;
#[cfg(test)]
mod load_calls;
#[cfg(test)]
mod open_transaction;
#[cfg(test)]
mod receipt_calls;
#[cfg(test)]
mod slot_calls;
#[cfg(test)]
mod snapshot_calls;
#[cfg(test)]
mod turn_calls;
