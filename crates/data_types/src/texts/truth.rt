//! bool (PostgreSQL 15, 8.6).

ghost use Rattle.std.specs.Prelude.{◌≡◌, codes};
ghost use Rattle.data_types.specs.Truths.{abridges, begins_word, is_no, is_truth_text, is_yes, truth_at, truth_of, truth_of_word};

use crate::texts::digits::{after_blanks, are_blanks, word_len};

/// Whether the text begins the word, in either case.
fn begins_word(text: &[u8], word: &[u8]) -> bool
    ensures { result ≡ begins_word text.now word.now }
{
    let mut rest = text;
    let mut left = word;
    while let Some((b, tail)) = rest.split_first() {
        match left.split_first() {
            Some((c, behind)) if b.to_ascii_lowercase() == *c => left = behind,
            _ => return false,
        }
        rest = tail;
    }
    true
}

pub(crate) fn abridges(least: usize, word: &[u8], text: &[u8]) -> bool
    ensures { result ≡ abridges least word.now text.now }
{
    text.len() >= least && begins_word(text, word)
}

fn is_yes(text: &[u8]) -> bool
    ensures { result ≡ is_yes text.now }
{
    abridges(1, b"true", text)
        || abridges(1, b"yes", text)
        || abridges(2, b"on", text)
        || text == b"1".as_slice()
}

fn is_no(text: &[u8]) -> bool
    ensures { result ≡ is_no text.now }
{
    abridges(1, b"false", text)
        || abridges(1, b"no", text)
        || abridges(2, b"off", text)
        || text == b"0".as_slice()
}

#[tactic(auto, unfolding(crate::specs::Truths::truth_of_word))]
fn truth_of_word(word: &[u8]) -> Option<bool>
    ensures { result ≡ truth_of_word word.now }
{
    if is_yes(word) {
        return Some(true);
    }
    if is_no(word) {
        return Some(false);
    }
    None
}

fn truth_at(text: &[u8]) -> Option<bool>
    ensures { result ≡ truth_at text.now }
{
    let (word, rest) = text.split_at(word_len(text));
    if are_blanks(rest) {
        return truth_of_word(word);
    }
    None
}

/// The truth value that a text is taken for: a word, or what begins one, between blanks.
pub(crate) fn truth_of(text: &[u8]) -> Option<bool>
    ensures { result ≡ truth_of text.now }
{
    truth_at(after_blanks(text))
}

/// Whether the text is that of a truth value as it is sent.
pub(crate) fn is_truth_text(text: &[u8]) -> bool
    ensures { result ≡ is_truth_text text.now }
{
    text == b"t".as_slice() || text == b"f".as_slice()
}
