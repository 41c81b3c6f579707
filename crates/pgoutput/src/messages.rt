//! The logical messages, one a file.

pub(crate) mod begin;
pub(crate) mod commit;
pub(crate) mod delete;
pub(crate) mod insert;
pub(crate) mod message;
pub(crate) mod relation;
pub(crate) mod truncate;
pub(crate) mod update;
