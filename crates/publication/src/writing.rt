//! Messages as they are written.

pub(crate) mod logged;
pub(crate) mod messages;
pub(crate) mod put_relation;
pub(crate) mod putting;
pub(crate) mod truncating;
