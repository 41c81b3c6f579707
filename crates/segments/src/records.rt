//! Records of the log as entries tell them.

pub(crate) mod fault;
pub(crate) mod laws;
pub(crate) mod reading;
pub(crate) mod record_body;
pub(crate) mod writing;
