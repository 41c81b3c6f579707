//! The server's side of an exchange, and what it keeps.

pub(crate) mod account;
pub(crate) mod login;
pub(crate) mod server_exchange;
pub(crate) mod told;
pub(crate) mod user_line;
pub(crate) mod verifier;
