//! What messages are made of.

pub(crate) mod fields;
pub(crate) mod letter;
pub(crate) mod list;
pub(crate) mod old_tuple;
pub(crate) mod tuple;
