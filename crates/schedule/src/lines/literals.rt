//! The rows and keys of a schedule, which are values in parentheses that commas separate, and its texts in quotes.

use crate::event::Literal;
use crate::lines::bad_line::{BadLine, LineDialect, LineRefusal};
use crate::lines::escapes::escaped_text;
use pqformat::{Items, Text};
use std::alloc::Global;

/// The values of the row that a text begins with, such as `(1,'ab',null)`, and what stands after it. There are none in `()`.
pub(crate) fn row_in(
    alloc: Global,
    text: &str,
    dialect: LineDialect,
) -> Result<(Items<Literal>, &str), LineRefusal> {
    let inner = text
        .strip_prefix('(')
        .ok_or(LineRefusal::Bad(BadLine::Row))?;
    let mut values = Vec::new(alloc);
    if let Some(behind) = inner.strip_prefix(')') {
        return Ok((Items::new(values), behind));
    }
    let mut rest = inner;
    // A value and what ends it take a byte at least, so these turns read the whole row.
    for _ in 0..inner.len() {
        let (value, ending) = literal_of(alloc, rest, dialect)?;
        values.push(value)?;
        if let Some(behind) = ending.strip_prefix(')') {
            // A script keeps its rows to its end.
            values.shrink_to_fit();
            return Ok((Items::new(values), behind));
        }
        rest = ending
            .strip_prefix(',')
            .ok_or(LineRefusal::Bad(BadLine::Row))?;
    }
    Err(LineRefusal::Bad(BadLine::Row))
}

/// The value that a text begins with, and what stands after it.
fn literal_of(
    alloc: Global,
    text: &str,
    dialect: LineDialect,
) -> Result<(Literal, &str), LineRefusal> {
    if text.starts_with('\'') || has_escapes(text, dialect) {
        let (content, behind) = text_in(alloc, text, dialect)?;
        return Ok((Literal::Text(content), behind));
    }
    let end = text
        .find(|c: char| c == ',' || c == ')')
        .ok_or(LineRefusal::Bad(BadLine::Row))?;
    let (word, behind) = text
        .split_at_checked(end)
        .ok_or(LineRefusal::Bad(BadLine::Row))?;
    Ok((word_of(word)?, behind))
}

/// Whether a text with escapes stands here, and may.
fn has_escapes(text: &str, dialect: LineDialect) -> bool {
    dialect == LineDialect::Script && text.starts_with("E'")
}

/// The content of the quoted text that a text begins with, such as `'it''s'`, and what stands after it.
pub(crate) fn text_in(
    alloc: Global,
    text: &str,
    dialect: LineDialect,
) -> Result<(Text, &str), LineRefusal> {
    if has_escapes(text, dialect) {
        let (content, behind) = escaped_text(alloc, text.strip_prefix("E'").unwrap_or(""))?;
        return Ok((Text::new(content), behind));
    }
    let quoted = text
        .strip_prefix('\'')
        .ok_or(LineRefusal::Bad(BadLine::Text))?;
    let (content, behind) = quoted_text(alloc, quoted)?;
    Ok((Text::new(content), behind))
}

/// The content of a quoted text, in which a doubled quote stands for one, and what follows the quote that closes it.
fn quoted_text(alloc: Global, text: &str) -> Result<(String, &str), LineRefusal> {
    let mut content = String::new(alloc);
    let mut rest = text;
    // Each turn takes a quote at least, so these turns read the whole text.
    for _ in 0..text.len() {
        let (piece, behind) = rest
            .split_once('\'')
            .ok_or(LineRefusal::Bad(BadLine::OpenText))?;
        content.push_str(piece)?;
        match behind.strip_prefix('\'') {
            None => return Ok((content, behind)),
            Some(more) => {
                content.push('\'')?;
                rest = more;
            }
        }
    }
    Err(LineRefusal::Bad(BadLine::OpenText))
}

fn word_of(word: &str) -> Result<Literal, LineRefusal> {
    match word {
        "null" => Ok(Literal::Null),
        "true" => Ok(Literal::Bool(true)),
        "false" => Ok(Literal::Bool(false)),
        _ => integer_of(word),
    }
}

/// An integer of any length: decimal digits, with a minus before them or none.
fn integer_of(word: &str) -> Result<Literal, LineRefusal> {
    let digits = word.strip_prefix('-').unwrap_or(word);
    if digits.is_empty() || !digits.bytes().all(|b| b.is_ascii_digit()) {
        return Err(LineRefusal::Bad(BadLine::Value));
    }
    match word.parse::<i64>() {
        Ok(integer) => Ok(Literal::Integer(integer)),
        Err(_) => Ok(Literal::Huge),
    }
}
