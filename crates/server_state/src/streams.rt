//! What streams are told, and how they are looked at and steered.

pub(crate) mod commit_notice;
pub(crate) mod spreading;
pub(crate) mod status;
pub(crate) mod steering;
