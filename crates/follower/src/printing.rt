//! How messages are printed.

pub(crate) mod form;
pub(crate) mod json_form;
pub(crate) mod json_transcript;
pub(crate) mod line;
pub(crate) mod line_kind;
pub(crate) mod output;
pub(crate) mod printer;
pub(crate) mod send_times;
pub(crate) mod text_form;
pub(crate) mod transcript;
pub(crate) mod whole;
