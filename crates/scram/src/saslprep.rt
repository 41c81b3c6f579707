//! Passwords as PostgreSQL takes them before SCRAM: prepared by SASLprep (RFC 4013) where they can be, and else as they are.
//!
//! `prepared` does it. `code_set.rt` looks up code points in the tables of RFC 3454: `tables.rt`, `unassigned.rt`,
//! `left_to_right.rt`.

mod code_set;
mod left_to_right;
mod preparing;
mod tables;
mod unassigned;

pub use preparing::prepared;
