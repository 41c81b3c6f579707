//! What is told on the standard error.

pub(crate) mod error_log;
pub(crate) mod level;
pub(crate) mod questions;
pub(crate) mod reports;
pub(crate) mod told_clients;
