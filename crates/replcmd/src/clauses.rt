//! What commands are told beside names.

pub(crate) mod publications;
pub(crate) mod setting;
pub(crate) mod slot_options;
pub(crate) mod snapshot_clause;
pub(crate) mod strictness;
pub(crate) mod unrecognized;
