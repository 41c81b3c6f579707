//! Where changes lie, and who owns their places.

pub(crate) mod change_order;
pub(crate) mod entry;
pub(crate) mod lent;
pub(crate) mod members;
pub(crate) mod place;
pub(crate) mod pool;
pub(crate) mod spots;
