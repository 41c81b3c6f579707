//! The word that all threads share, and what was seen by it.

pub(crate) mod copy;
pub(crate) mod edge;
pub(crate) mod empty_history;
pub(crate) mod entry;
pub(crate) mod history;
pub(crate) mod law;
pub(crate) mod mark;
pub(crate) mod name;
pub(crate) mod rule;
pub(crate) mod seen_prefix;
