//! The places of rows, and how they are found.

pub(crate) mod key;
pub(crate) mod slots;
pub(crate) mod stored_place;
