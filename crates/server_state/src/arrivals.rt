//! Connections that arrive, and the end of all.

pub(crate) mod arriving;
pub(crate) mod ending;
pub(crate) mod strangers;
