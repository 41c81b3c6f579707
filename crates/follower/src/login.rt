//! From a connection to its stream.

pub(crate) mod asking;
pub(crate) mod authenticating;
pub(crate) mod login_fault;
pub(crate) mod peer;
pub(crate) mod request;
pub(crate) mod sasl_response;
pub(crate) mod startup;
