//! From the document of a configuration to publications.

pub(crate) mod config;
pub(crate) mod config_fault;
pub(crate) mod config_publication;
pub(crate) mod config_table;
pub(crate) mod explaining;
pub(crate) mod judging;
