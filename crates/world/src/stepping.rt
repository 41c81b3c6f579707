//! What one line of a run does.

pub(crate) mod action;
pub(crate) mod forgetting;
pub(crate) mod start;
pub(crate) mod starting;
pub(crate) mod statuses;
