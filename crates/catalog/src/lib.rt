//! The catalogue: the tables that a publisher knows, and how the text of a configuration tells them.
//!
//! `Catalog` holds the tables by OID. `config.rt` reads them from a TOML text, table by table (`config_table.rt`), and
//! `config_fault.rt` says what is wrong where; `document.rt` reads the text itself.
//!
//! Above, one contract is used: `Catalog::from_toml` answers the catalogue that the text names (specs: `Names`), or its first
//! fault.
#![tactic(auto)]

mod catalog;
mod config;
mod config_fault;
mod config_member;
mod config_table;
mod document;

pub use catalog::Catalog;
pub use config::MAX_TABLES;
pub use config_fault::{CatalogFault, CatalogMember, CatalogMisfit};
pub use config_member::{MAX_OID, is_more_than, name_in, names_in};
pub use document::read_document;
