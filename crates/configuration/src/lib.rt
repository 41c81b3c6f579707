//! What a publisher is configured with, read from a TOML text: its tables, its publications, and its server.
//!
//! `Config::from_toml` reads a text, or answers what is wrong with it, and `explained` says that in lines for whoever wrote it;
//! `config_at` does both for a file.
//! The form of a configuration is told in docs/CONFIGURATION.md.
//!
//! Read `config.rt`, `server.rt`, `file.rt`. Above, one contract is used: `Config::from_toml` answers exactly the configuration
//! that a text names, or its first fault (specs: `Names`).
#![tactic(auto)]

mod columns;
mod config;
mod config_fault;
mod file;
mod server;

pub use config::{Config, explained};
pub use config_fault::{ConfigFault, ServerMisfit};
pub use file::{ConfigFileFault, config_at};
pub use server::{MAX_CHUNKS, MAX_SYSTEMID, Server};
