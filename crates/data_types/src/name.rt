//! The names of data types in a configuration.

ghost use Rattle.std.specs.Prelude.{◌≡◌, ◌≤◌, length};
ghost use Rattle.data_types.specs.Names.{count_in, type_named, type_of_word, letter_count, limit_in, limited_type, places_in, plain_type, scale_after};

use crate::data_type::DataType;
use crate::limits::{CharacterLimit, DecimalPlaces};
use crate::texts::digits::digits_at;

impl DataType {
    /// The type of this name, such as `date`, `varchar(20)` or `numeric(10,2)`; None of those of which `is_sent` takes no text, and of
    /// those that a table keeps in another form than as texts.
    #[tactic(auto, unfolding(crate::specs::Names::type_named))]
    pub fn named(name: &str) -> Option<DataType>
        ensures { result ≡ type_named name.now }
    {
        let name = name.as_bytes();
        let (word, limits) = name.split_at(letter_count(name));
        type_of_word(word, limits)
    }
}

/// How many lower-case letters stand at the front.
fn letter_count(text: &[u8]) -> usize
    ensures value { result ≡ letter_count text.now }
    ensures within { result ≤ length text.now }
{
    let mut count = 0;
    let mut rest = text;
    while let Some((b, tail)) = rest.split_first() {
        if !b.is_ascii_lowercase() {
            return count;
        }
        count += 1;
        rest = tail;
    }
    count
}

fn type_of_word(word: &[u8], limits: &[u8]) -> Option<DataType>
    ensures { result ≡ type_of_word word.now limits.now }
{
    match limits.split_first() {
        None => plain_type(word),
        Some((b, limits)) if *b == b'(' => limited_type(word, limits),
        Some(_) => None,
    }
}

fn plain_type(word: &[u8]) -> Option<DataType>
    ensures { result ≡ plain_type word.now }
{
    if word == b"numeric".as_slice() {
        Some(DataType::Numeric(None))
    } else if word == b"varchar".as_slice() {
        Some(DataType::Varchar(None))
    } else if word == b"char".as_slice() {
        Some(DataType::Char(CharacterLimit::new(1)?))
    } else if word == b"bytea".as_slice() {
        Some(DataType::Bytea)
    } else if word == b"date".as_slice() {
        Some(DataType::Date)
    } else if word == b"time".as_slice() {
        Some(DataType::Time)
    } else if word == b"timestamp".as_slice() {
        Some(DataType::Timestamp)
    } else if word == b"timestamptz".as_slice() {
        Some(DataType::Timestamptz)
    } else {
        None
    }
}

/// The type of a word before a parenthesis, by what stands after that.
fn limited_type(word: &[u8], limits: &[u8]) -> Option<DataType>
    ensures { result ≡ limited_type word.now limits.now }
{
    if word == b"numeric".as_slice() {
        Some(DataType::Numeric(Some(places_in(limits)?)))
    } else if word == b"varchar".as_slice() {
        Some(DataType::Varchar(Some(limit_in(limits)?)))
    } else if word == b"char".as_slice() {
        Some(DataType::Char(limit_in(limits)?))
    } else {
        None
    }
}

/// The number before a closing parenthesis, which ends the text.
fn count_in(text: &[u8]) -> Option<u64>
    ensures { result ≡ count_in text.now }
{
    let digits = digits_at(text)?;
    if digits.count > 0 && digits.rest == b")".as_slice() {
        return Some(digits.value);
    }
    None
}

fn limit_in(text: &[u8]) -> Option<CharacterLimit>
    ensures { result ≡ limit_in text.now }
{
    CharacterLimit::new(count_in(text)?)
}

fn places_in(text: &[u8]) -> Option<DecimalPlaces>
    ensures { result ≡ places_in text.now }
{
    let precision = digits_at(text)?;
    if precision.count > 0 {
        return scale_after(precision.value, precision.rest);
    }
    None
}

fn scale_after(precision: u64, text: &[u8]) -> Option<DecimalPlaces>
    ensures { result ≡ scale_after precision text.now }
{
    match text.split_first() {
        Some((b, scale)) if *b == b',' => DecimalPlaces::new(precision, count_in(scale)?),
        Some((b, behind)) if *b == b')' && behind.is_empty() => DecimalPlaces::new(precision, 0),
        _ => None,
    }
}
