//! From the text of a command to its tokens.

ghost use Rattle.std.specs.Prelude.{◌≡◌, ◌<◌, IfOk, Some, false};
ghost use Rattle.replcmd.specs.declared.text.token.Token.TheVariants.{Quoted, Value};
ghost use Rattle.replcmd.specs.Tokens.{is_blank, is_mark, is_plain};
ghost use Rattle.std.specs.Str.{IsUtf8};
ghost use Rattle.replcmd.specs.Lexing.{after_blanks, word_of, after_word, closed_token, token_from, token_at, Lexes, lent};
ghost use Rattle.pqformat.specs.Quoting.{quoted_at, lent_text};

use crate::text::token::{CLOSE, COMMA, NAME_QUOTE, OPEN, SEMICOLON, Token, VALUE_QUOTE};
use pqformat::{Text, nothing_of, quoted_bytes};
use std::alloc::{AllocError, Global};

fn is_blank(b: u8) -> bool
    ensures { result ≡ is_blank b }
{
    b == b' ' || b == b'\t' || b == b'\n' || b == b'\r'
}

fn is_mark(b: u8) -> bool
    ensures { result ≡ is_mark b }
{
    b == OPEN || b == CLOSE || b == COMMA || b == SEMICOLON
}

fn is_plain(b: u8) -> bool
    ensures { result ≡ is_plain b }
{
    !(is_blank(b) || is_mark(b) || b == NAME_QUOTE || b == VALUE_QUOTE)
}

pub(crate) fn after_blanks(text: &[u8]) -> &[u8]
    ensures { result.now ≡ after_blanks text.now }
{
    let mut rest = text;
    while let Some((b, tail)) = rest.split_first() {
        if !is_blank(*b) {
            return rest;
        }
        rest = tail;
    }
    rest
}

/// The name of bytes that are text, as the pieces of a text between quotes, marks and blanks are.
fn name_of(bytes: Vec<u8>) -> Text
    requires { IsUtf8 bytes.items }
    ensures { result ≡ bytes.items }
{
    Text::new(String::from_utf8(bytes).unwrap())
}

/// The word at the front, and what follows it.
fn word_of(alloc: Global, text: &[u8]) -> Result<(Text, &[u8]), AllocError>
    requires { IsUtf8 text.now }
    ensures { IfOk result (λ x. (x.0 ≡ word_of text.now) × (x.1.now ≡ after_word text.now)) }
{
    let (bytes, rest) = word_bytes(alloc, text)?;
    Ok((name_of(bytes), rest))
}

fn word_bytes(alloc: Global, text: &[u8]) -> Result<(Vec<u8>, &[u8]), AllocError>
    ensures { IfOk result (λ x. (x.0.items ≡ word_of text.now) × (x.1.now ≡ after_word text.now)) }
{
    let mut found = Vec::new(alloc);
    let mut rest = text;
    while let Some((b, tail)) = rest.split_first() {
        if !is_plain(*b) {
            return Ok((found, rest));
        }
        found.push(*b)?;
        rest = tail;
    }
    Ok((found, rest))
}

/// The text up to the closing quote, after the opening one, and what follows that; None where no quote closes it. A quote that
/// is meant stands twice. `AllocError` where memory for it is refused.
pub fn quoted_of(alloc: Global, quote: u8, text: &[u8]) -> Result<Option<(Text, &[u8])>, AllocError>
    requires ascii { quote < 128 }
    requires utf8 { IsUtf8 text.now }
    ensures { IfOk result (λ x. lent_text x ≡ quoted_at false quote text.now) }
{
    let Some((bytes, rest)) = quoted_bytes(alloc, quote, text)? else {
        return Ok(None);
    };
    Ok(Some((name_of(bytes), rest)))
}

/// The token of a name in quotes, where its first quote was read.
fn quoted_name(alloc: Global, text: &[u8]) -> Result<(Token, &[u8]), AllocError>
    requires { IsUtf8 text.now }
    ensures { IfOk result
        (λ x. (x.0, x.1.now) ≡ closed_token (λ n. Quoted n) (quoted_at false NAME_QUOTE text.now)) }
{
    let Some((name, rest)) = quoted_of(alloc, NAME_QUOTE, text)? else {
        return Ok((Token::Unclosed, nothing_of(text)));
    };
    Ok((Token::Quoted(name), rest))
}

/// The token of a value in quotes, where its first quote was read.
fn quoted_value(alloc: Global, text: &[u8]) -> Result<(Token, &[u8]), AllocError>
    requires { IsUtf8 text.now }
    ensures { IfOk result
        (λ x. (x.0, x.1.now) ≡ closed_token (λ v. Value v) (quoted_at false VALUE_QUOTE text.now)) }
{
    let Some((value, rest)) = quoted_of(alloc, VALUE_QUOTE, text)? else {
        return Ok((Token::Unclosed, nothing_of(text)));
    };
    Ok((Token::Value(value), rest))
}

/// The first token, and what follows it; None where only blanks are left.
#[tactic(auto, unfolding(crate::specs::Lexing::token_at))]
pub(crate) fn token_of(alloc: Global, text: &[u8]) -> Result<Option<(Token, &[u8])>, AllocError>
    requires { IsUtf8 text.now }
    ensures { IfOk result (λ x. lent x ≡ token_at text.now) }
{
    token_at_front(alloc, after_blanks(text))
}

/// The token that begins at once, with no blanks before it.
fn token_at_front(alloc: Global, text: &[u8]) -> Result<Option<(Token, &[u8])>, AllocError>
    requires { IsUtf8 text.now }
    ensures { IfOk result (λ x. lent x ≡ token_from text.now) }
{
    let Some((b, tail)) = text.split_first() else {
        return Ok(None);
    };
    if *b == NAME_QUOTE {
        return Ok(Some(quoted_name(alloc, tail)?));
    }
    if *b == VALUE_QUOTE {
        return Ok(Some(quoted_value(alloc, tail)?));
    }
    if is_mark(*b) {
        return Ok(Some((Token::Mark(*b), tail)));
    }
    let (word, rest) = word_of(alloc, text)?;
    Ok(Some((Token::Word(word), rest)))
}

/// The tokens of a text, one after the other.
pub(crate) fn tokens_of(alloc: Global, text: &[u8]) -> Result<Vec<Token>, AllocError>
    requires { IsUtf8 text.now }
    ensures { IfOk result (λ tokens. Lexes text.now tokens.items) }
{
    let mut tokens = Vec::new(alloc);
    let mut place = text;
    while let Some((token, rest)) = token_of(alloc, place)? {
        tokens.push(token)?;
        place = rest;
    }
    Ok(tokens)
}
