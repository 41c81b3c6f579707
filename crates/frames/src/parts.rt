//! What frames are made of.

pub(crate) mod alone;
pub(crate) mod body;
pub(crate) mod field;
pub(crate) mod frame;
pub(crate) mod list;
