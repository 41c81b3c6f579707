//! Rows whose values are told by the names of their columns.
//!
//! Read `datum.rt`, `telling.rt`, then `row_view.rt`. Above, one contract is used: the row that `row_of` answers holds in each
//! column what is told of it.
#![tactic(auto)]

mod datum;
mod fault;
mod row_view;
mod telling;

pub use datum::{Datum, NamedDatum, field};
pub use fault::FieldFault;
pub use row_view::RowView;
pub use telling::{key_of, row_of};
