//! What a hub is opened with.

pub(crate) mod at_once;
pub(crate) mod configured;
pub(crate) mod document;
pub(crate) mod hub_builder;
pub(crate) mod new_publication;
pub(crate) mod new_table;
pub(crate) mod settings;
pub(crate) mod shared;
pub(crate) mod system;
