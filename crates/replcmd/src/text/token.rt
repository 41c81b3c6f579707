//! The tokens of a command.

use pqformat::Text;

/// The quote round names, and the one round values. One that is meant stands twice.
pub(crate) const NAME_QUOTE: u8 = b'"';

pub(crate) const VALUE_QUOTE: u8 = b'\'';

/// The marks.
pub(crate) const OPEN: u8 = b'(';

pub(crate) const CLOSE: u8 = b')';

pub(crate) const COMMA: u8 = b',';

pub(crate) const SEMICOLON: u8 = b';';

/// A token. Quoted texts are held as they are meant, with single quotes for doubled ones.
#[derive(Drop)]
pub(crate) enum Token {
    /// A keyword, a bare name or a position.
    Word(Text),
    /// A name in double quotes.
    Quoted(Text),
    /// A value in single quotes.
    Value(Text),
    /// A bracket, a comma or a semicolon.
    Mark(u8),
    /// A quote that is never closed, up to the end of the text.
    Unclosed,
}
