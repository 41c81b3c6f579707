//! Conversations that are carried on.

pub(crate) mod calls;
pub(crate) mod scripted_backend;
pub(crate) mod scripted_tables;
pub(crate) mod subscriber;
pub(crate) mod talk;
