//! text, varchar(n) and char(n), in UTF-8 (PostgreSQL 15, 8.3).

ghost use Rattle.std.specs.Prelude.{◌≡◌, ◌≤◌, length};
ghost use Rattle.data_types.specs.Characters.{begins_character, character_count, has_no_zero, is_char_text, is_varchar_text, unpadded};

use crate::limits::CharacterLimit;

/// Whether none of the bytes is zero.
pub(crate) fn has_no_zero(text: &[u8]) -> bool
    ensures { result ≡ has_no_zero text.now }
{
    text.iter().all(|b| *b != 0)
}

fn begins_character(b: u8) -> bool
    ensures { result ≡ begins_character b }
{
    !(128 <= b && b < 192)
}

/// How many characters the text has.
pub(crate) fn character_count(text: &[u8]) -> usize
    ensures { result ≡ character_count text.now }
{
    text.iter().filter(|b| begins_character(**b)).count()
}

/// Whether the text has no more characters than it may have.
pub(crate) fn is_varchar_text(limit: Option<CharacterLimit>, text: &[u8]) -> bool
    ensures { result ≡ is_varchar_text limit text.now }
{
    has_no_zero(text)
        && match limit {
            Some(limit) => character_count(text) <= limit.count() as usize,
            None => true,
        }
}

/// Whether the text has as many characters as it has to have.
pub(crate) fn is_char_text(limit: CharacterLimit, text: &[u8]) -> bool
    ensures { result ≡ is_char_text limit text.now }
{
    has_no_zero(text) && character_count(text) == limit.count() as usize
}

/// The text without the spaces at its end.
pub(crate) fn unpadded(text: &[u8]) -> &[u8]
    ensures { result.now ≡ unpadded text.now }
{
    let mut end = text.len();
    while end > 0 {
        if text[end - 1] != b' ' {
            break;
        }
        end -= 1;
    }
    &text[..end]
}
