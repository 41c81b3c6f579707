//! Lines as events.

pub(crate) mod bad_line;
pub(crate) mod escapes;
pub(crate) mod fields;
pub(crate) mod literals;
pub(crate) mod parse;
pub(crate) mod rows;
pub(crate) mod start_options;
