//! The frames that a client sends, one a file.

pub(crate) mod copy_fail;
pub(crate) mod parameter;
pub(crate) mod query;
pub(crate) mod startup;
pub(crate) mod terminate;
