//! Words in the quotes of the texts that a server is asked.

use std::alloc::AllocError;

/// Adds a literal (PostgreSQL 15, 4.1.2): where it has backslashes, these are doubled, after an E.
pub(crate) fn push_literal(text: &mut String, word: &str) -> Result<(), AllocError> {
    if word.contains('\\') {
        text.push('E')?;
    }
    text.push('\'')?;
    for letter in word.chars() {
        if letter == '\'' || letter == '\\' {
            text.push(letter)?;
        }
        text.push(letter)?;
    }
    text.push('\'')
}

/// Adds the word between quotes, with each of its own doubled.
pub(crate) fn push_quoted(text: &mut String, word: &str, quote: char) -> Result<(), AllocError> {
    text.push(quote)?;
    for letter in word.chars() {
        if letter == quote {
            text.push(quote)?;
        }
        text.push(letter)?;
    }
    text.push(quote)
}
