//! From a text to its words.

pub(crate) mod class;
pub(crate) mod filter_word;
pub(crate) mod lexer;
pub(crate) mod number;
pub(crate) mod token;
