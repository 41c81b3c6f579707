//! Publications: the tables that each has, with the rows and columns of each, and the operations that it publishes; how the text
//! of a configuration tells them, and why it tells none.
//!
//! `Publication` is a name, operations and tables (`PublishedTable`: a filter and a list of columns). `document/config.rt` reads them
//! from TOML, and `document/explaining.rt` says what is wrong in words; `document/judging.rt` refuses what PostgreSQL would, such as a filter over
//! columns outside the identity.
//!
//! Read `published_table.rt`, `publication.rt`, `document/config.rt`. Above, one contract is used: `publications_in` answers exactly the
//! publications that the text configures, or its first fault.
#![tactic(auto)]

mod document;
mod fault;
mod identity;
mod operations;
mod publication;
mod published_table;

pub use document::config::{configured_by, publications_in};
pub use document::config_fault::{PublicationMember, PublicationMisfit, TableMember, TablePlace};
pub use document::explaining::explained;
pub use fault::PubFault;
pub use identity::is_in_identity;
pub use operations::{Operation, Operations};
pub use publication::{Publication, conflict, named};
pub use published_table::{PublishedTable, is_listed};
