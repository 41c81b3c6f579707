//! PostgreSQL's data types, of those that columns have here, and the texts of their values.
//!
//! `data_type.rt` is the table of what a Relation tells of each, `name.rt` has the names in a configuration, `limits.rt` what stands in
//! parentheses. Each type has a file that says which texts are sent of it, as `texts/calendar.rt` of dates; `sent.rt` joins them.
//!
//! Above, three contracts are used: `DataType::named`, `DataType::is_sent`, and what the Relation tells.
#![tactic(auto)]

mod data_type;
mod limits;
mod name;
mod sent;
mod texts;

pub use data_type::DataType;
pub use limits::{CharacterLimit, DecimalPlaces, MAX_CHARACTERS, MAX_PRECISION};
