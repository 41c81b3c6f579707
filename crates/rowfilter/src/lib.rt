//! Row filters: conditions over the row of a table, read from their texts, and which rows they are true of.
//!
//! `parse` reads a text as a `Filter`, and `fault_at` says where one is wrong; `Filter::truth` is what it is of a row.
//!
//! Read `filter.rt`, then `reading.rt`. Above, one contract is used: a row passes exactly if the condition is true of it by
//! SQL's three values, and a text is a filter exactly if it spells one.
#![tactic(auto)]

mod filter;
mod locating;
mod reading;

pub use conditions::{FilterFault, MOST_LEVELS, Truth};
pub use filter::Filter;
pub use locating::fault_at;
pub use reading::{MOST_BYTES, parse};
