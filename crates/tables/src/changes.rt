//! Changes and messages as the log keeps them.

pub(crate) mod change;
pub(crate) mod change_body;
pub(crate) mod change_reading;
pub(crate) mod message;
pub(crate) mod oids;
