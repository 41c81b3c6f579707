//! What a word or a name may be.

ghost use Rattle.std.specs.Prelude.{◌≡◌, IfOk, map, false};
ghost use Rattle.std.specs.Char.{is_ascii_digit, to_ascii_lowercase};
ghost use Rattle.std.specs.List.{list_all};
ghost use Rattle.replcmd.specs.Words.{is_keyword, is_truth, is_later, is_bare, is_slot_byte, is_slot_name};
ghost use Rattle.replcmd.specs.Reading.{truth_of};

use pqformat::Text;
use std::alloc::{AllocError, Global};

/// The longest name of a slot, in bytes.
pub const MOST_SLOT_NAME_BYTES: usize = 63;

/// Whether the word is this keyword, in either case.
#[tactic(auto, using(crate::proofs::Keywords::keyword_tested))]
pub(crate) fn is_keyword(keyword: &str, word: &str) -> bool
    ensures { result ≡ is_keyword keyword.now word.now }
{
    word.eq_ignore_ascii_case(keyword)
}

/// What a word says that stands for a truth value: `true` or `on`, `false` or `off`, in either case.
#[tactic(auto, unfolding(crate::specs::Reading::truth_of))]
pub(crate) fn truth_of(word: &str) -> Option<bool>
    ensures { result ≡ truth_of word.now }
{
    if is_keyword("true", word) || is_keyword("on", word) {
        return Some(true);
    }
    if is_off(word) {
        return Some(false);
    }
    None
}

/// Whether the word says no: `false` or `off`, in either case.
pub(crate) fn is_off(word: &str) -> bool
    ensures { result ≡ is_truth false word.now }
{
    is_keyword("false", word) || is_keyword("off", word)
}

/// Whether the word is a bare name: a letter or an underscore, and then letters, digits, underscores or dollar signs.
pub(crate) fn is_bare(word: &str) -> bool
    ensures { result ≡ is_bare word.now }
{
    match word.as_bytes().split_first() {
        Some((first, later)) => (first.is_ascii_alphabetic() || *first == b'_') && are_later(later),
        None => false,
    }
}

fn are_later(bytes: &[u8]) -> bool
    ensures { result ≡ list_all is_later bytes.now }
{
    bytes
        .iter()
        .all(|b| b.is_ascii_alphanumeric() || *b == b'_' || *b == b'$')
}

/// Whether nothing but decimal digits stands there.
pub(crate) fn are_digits(word: &str) -> bool
    ensures { result ≡ list_all is_ascii_digit word.now }
{
    word.as_bytes().iter().all(|b| b.is_ascii_digit())
}

/// The word in lower case, as bare names are meant.
pub(crate) fn folded(alloc: Global, word: &str) -> Result<Text, AllocError>
    ensures { IfOk result (λ name. name ≡ map to_ascii_lowercase word.now) }
{
    let mut string = String::from_str(alloc, word)?;
    string.make_ascii_lowercase();
    Ok(Text::new(string))
}

/// Whether the name is one of a slot: 1 to 63 lower-case letters, digits and underscores (PostgreSQL 15, 27.2.6.1).
pub fn is_slot_name(name: &str) -> bool
    ensures { result ≡ is_slot_name name.now }
{
    !name.is_empty() && name.len() <= MOST_SLOT_NAME_BYTES && are_slot_bytes(name.as_bytes())
}

fn are_slot_bytes(bytes: &[u8]) -> bool
    ensures { result ≡ list_all is_slot_byte bytes.now }
{
    bytes.iter().all(|b| b.is_ascii_lowercase() || b.is_ascii_digit() || *b == b'_')
}
