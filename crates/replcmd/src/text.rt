//! From the text of a command to its words.

pub(crate) mod lexer;
pub(crate) mod position;
pub(crate) mod token;
pub(crate) mod tokens;
pub(crate) mod verb;
pub(crate) mod words;
