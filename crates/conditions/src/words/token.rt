//! The tokens of a filter's text.

use pqformat::Items;

/// The quote round names, and the one round texts. One that is meant stands twice.
pub(crate) const NAME_QUOTE: u8 = b'"';

pub(crate) const TEXT_QUOTE: u8 = b'\'';

pub(crate) const MINUS: u8 = b'-';

/// A token, as it's written. Texts in quotes are held as they are meant, with single quotes for doubled ones.
#[derive(Drop)]
pub enum Token {
    /// A keyword or a bare name.
    Word(Items<u8>),
    /// Digits, after a minus if there is one.
    Number(Items<u8>),
    /// A name in double quotes.
    Quoted(Items<u8>),
    /// A text in single quotes.
    Text(Items<u8>),
    /// A bracket, or a comparison of one byte.
    Mark(u8),
    /// A comparison of two bytes.
    Pair(u8, u8),
    /// What is no token, up to the end of the text.
    Stray,
}
