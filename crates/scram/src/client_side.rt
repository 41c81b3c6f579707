//! The client's side of an exchange.

pub(crate) mod attributes;
pub(crate) mod client_exchange;
pub(crate) mod client_final;
pub(crate) mod client_first;
pub(crate) mod iteration_count;
pub(crate) mod server_fault;
pub(crate) mod server_first;
