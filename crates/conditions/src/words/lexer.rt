//! From the text of a filter to its tokens (PostgreSQL 15, 4.1).

ghost use Rattle.std.specs.Prelude.{◌⊎◌, List, IfErr, ◌≡◌, ◌<◌, ◌∷◌, ◌++◌, IfOk, IfSome, Some, length, false};
ghost use Rattle.std.specs.List.{list_any};
ghost use Rattle.std.specs.Char.{is_ascii_digit};
ghost use Rattle.conditions.specs.declared.words.token.Token.TheVariants.{Number, Quoted, Text, Word};
ghost use Rattle.conditions.specs.declared.words.token.Token.{Token};
ghost use Rattle.conditions.specs.declared.fault.FilterFault.TheVariants.{Memory, Syntax};
ghost use Rattle.conditions.specs.declared.words.token.TheConstants.{NAME_QUOTE, TEXT_QUOTE};
ghost use Rattle.conditions.specs.declared.words.class.Class.TheVariants as classes;
ghost use Rattle.conditions.specs.Tokens.{Spells, is_first, is_mark, is_pair};
ghost use Rattle.pqformat.specs.Quoting.{begins, quoted_at};
ghost use Rattle.conditions.specs.Lexing.{GivesTokens, is_stray, Lexes, after_run, closed_token, lent, lent_token, mark_at, one_mark, run_of, signed_at, token_at, token_after};

use crate::fault::FilterFault;
use crate::words::class::Class;
use crate::words::token::{MINUS, NAME_QUOTE, TEXT_QUOTE, Token};
use pqformat::{Items, nothing_of, quoted_bytes};
use std::alloc::{AllocError, Global};

fn is_first(b: u8) -> bool
    ensures { result ≡ is_first b }
{
    b.is_ascii_alphabetic() || b == b'_'
}

fn is_mark(b: u8) -> bool
    ensures { result ≡ is_mark b }
{
    b == b'(' || b == b')' || b == b'=' || b == b'<' || b == b'>'
}

fn is_pair(b: u8, c: u8) -> bool
    ensures { result ≡ is_pair b c }
{
    (b == b'<' && c == b'>')
        || (b == b'!' && c == b'=')
        || (b == b'<' && c == b'=')
        || (b == b'>' && c == b'=')
}

fn begins_with_digit(text: &[u8]) -> bool
    ensures { result ≡ begins is_ascii_digit text.now }
{
    match text.split_first() {
        Some((b, _)) => b.is_ascii_digit(),
        None => false,
    }
}

fn after_run(class: Class, text: &[u8]) -> &[u8]
    ensures { result.now ≡ after_run class text.now }
{
    let mut rest = text;
    while let Some((b, tail)) = rest.split_first() {
        if !class.holds(*b) {
            return rest;
        }
        rest = tail;
    }
    rest
}

/// Adds the bytes of this class at the front, and gives what follows them.
fn take_run<'a>(bytes: &mut Vec<u8>, class: Class, text: &'a [u8]) -> Result<&'a [u8], AllocError>
    ensures { IfOk result
        (λ rest. (bytes.new.items ≡ bytes.old.items ++ run_of class text.now)
        × (rest.now ≡ after_run class text.now)) }
{
    let mut rest = text;
    while let Some((b, tail)) = rest.split_first() {
        if !class.holds(*b) {
            return Ok(rest);
        }
        bytes.push(*b)?;
        rest = tail;
    }
    Ok(rest)
}

/// The token of a name in quotes, where its first quote was read.
fn quoted_name(alloc: Global, text: &[u8]) -> Result<(Token, &[u8]), AllocError>
    ensures { IfOk result
        (λ x. lent_token x ≡ closed_token (λ n. Quoted n) (quoted_at false NAME_QUOTE text.now)) }
{
    let Some((bytes, rest)) = quoted_bytes(alloc, NAME_QUOTE, text)? else {
        return Ok((Token::Stray, nothing_of(text)));
    };
    Ok((Token::Quoted(Items::new(bytes)), rest))
}

/// The token of a text in quotes, where its first quote was read.
fn quoted_text(alloc: Global, text: &[u8]) -> Result<(Token, &[u8]), AllocError>
    ensures { IfOk result
        (λ x. lent_token x ≡ closed_token (λ t. Text t) (quoted_at false TEXT_QUOTE text.now)) }
{
    let Some((bytes, rest)) = quoted_bytes(alloc, TEXT_QUOTE, text)? else {
        return Ok((Token::Stray, nothing_of(text)));
    };
    Ok((Token::Text(Items::new(bytes)), rest))
}

fn word(alloc: Global, text: &[u8]) -> Result<(Token, &[u8]), AllocError>
    ensures { IfOk result
        (λ x. lent_token x
        ≡ (Word (run_of classes.Later text.now), after_run classes.Later text.now)) }
{
    let mut bytes = Vec::new(alloc);
    let rest = take_run(&mut bytes, Class::Later, text)?;
    Ok((Token::Word(Items::new(bytes)), rest))
}

fn number(alloc: Global, text: &[u8]) -> Result<(Token, &[u8]), AllocError>
    ensures { IfOk result
        (λ x. lent_token x
        ≡ (Number (run_of classes.Digit text.now), after_run classes.Digit text.now)) }
{
    let mut bytes = Vec::new(alloc);
    let rest = take_run(&mut bytes, Class::Digit, text)?;
    Ok((Token::Number(Items::new(bytes)), rest))
}

/// The number after a minus, which was read.
fn signed(alloc: Global, text: &[u8]) -> Result<(Token, &[u8]), AllocError>
    ensures { IfOk result (λ x. lent_token x ≡ signed_at text.now) }
{
    if !begins_with_digit(text) {
        return Ok((Token::Stray, nothing_of(text)));
    }
    let mut bytes = Vec::new(alloc);
    bytes.push(MINUS)?;
    let rest = take_run(&mut bytes, Class::Digit, text)?;
    Ok((Token::Number(Items::new(bytes)), rest))
}

fn one_mark(b: u8, tail: &[u8]) -> (Token, &[u8])
    ensures { lent_token result ≡ one_mark b tail.now }
{
    if is_mark(b) {
        (Token::Mark(b), tail)
    } else {
        (Token::Stray, nothing_of(tail))
    }
}

/// A bracket or a comparison that begins with this byte.
fn mark(b: u8, tail: &[u8]) -> (Token, &[u8])
    ensures { lent_token result ≡ mark_at b tail.now }
{
    match tail.split_first() {
        Some((c, rest)) if is_pair(b, *c) => (Token::Pair(b, *c), rest),
        _ => one_mark(b, tail),
    }
}

/// The token that begins with this byte, the first of the text.
fn token_after<'a>(
    alloc: Global,
    b: u8,
    text: &'a [u8],
    tail: &'a [u8],
) -> Result<(Token, &'a [u8]), AllocError>
    requires { text.now ≡ b ∷ tail.now }
    ensures { IfOk result (λ x. lent_token x ≡ token_after b tail.now) }
{
    if b == NAME_QUOTE {
        return quoted_name(alloc, tail);
    }
    if b == TEXT_QUOTE {
        return quoted_text(alloc, tail);
    }
    if is_first(b) {
        return word(alloc, text);
    }
    if b.is_ascii_digit() {
        return number(alloc, text);
    }
    if b == MINUS {
        return signed(alloc, tail);
    }
    Ok(mark(b, tail))
}

/// The text from its first token on.
pub fn behind_blanks(text: &[u8]) -> &[u8]
    ensures { result.now ≡ after_run classes.Blank text.now }
{
    after_run(Class::Blank, text)
}

/// The first token, and what follows it; None where only blanks are left. `AllocError` where memory for it is refused.
pub fn token_of(alloc: Global, text: &[u8]) -> Result<Option<(Token, &[u8])>, AllocError>
    ensures value { IfOk result (λ x. lent x ≡ token_at text.now) }
    ensures shorter { IfOk result (λ x. IfSome x (λ y. length y.1.now < length text.now)) }
{
    first_token(alloc, text)
}

#[tactic(auto, unfolding(crate::specs::Lexing::token_at))]
fn first_token(alloc: Global, text: &[u8]) -> Result<Option<(Token, &[u8])>, AllocError>
    ensures { IfOk result (λ x. lent x ≡ token_at text.now) }
{
    let front = behind_blanks(text);
    let Some((b, tail)) = front.split_first() else {
        return Ok(None);
    };
    Ok(Some(token_after(alloc, *b, front, tail)?))
}

/// The tokens of a text, one after the other; the last one is stray where it has none.
fn tokens_of(alloc: Global, text: &[u8]) -> Result<Vec<Token>, AllocError>
    ensures { IfOk result (λ tokens. Lexes text.now tokens.items) }
{
    let mut tokens = Vec::new(alloc);
    let mut place = text;
    while let Some((token, rest)) = token_of(alloc, place)? {
        tokens.push(token)?;
        place = rest;
    }
    Ok(tokens)
}

fn is_stray(token: &Token) -> bool
    ensures { result ≡ is_stray token.now }
{
    matches!(token, Token::Stray)
}

fn has_stray(tokens: &[Token]) -> bool
    ensures { result ≡ list_any is_stray tokens.now }
{
    tokens.iter().any(|token| is_stray(token))
}

/// The tokens that the text spells; `Syntax` (X1) where it spells none. Or `Memory` (X6).
#[tactic(auto, using(crate::proofs::Lexemes::tokens_found, crate::proofs::Lexemes::tokens_only, crate::proofs::Lexemes::tokens_none))]
pub fn read_tokens(alloc: Global, text: &str) -> Result<Vec<Token>, FilterFault>
    ensures found { IfOk result (λ tokens. Spells text.now tokens.items) }
    ensures only { (tokens : List Token) → Spells text.now tokens → GivesTokens result tokens }
    ensures fault { IfErr result (λ e. (e ≡ Syntax) ⊎ (e ≡ Memory)) }
{
    let tokens = tokens_of(alloc, text.as_bytes())?;
    if has_stray(tokens.as_slice()) {
        return Err(FilterFault::Syntax);
    }
    Ok(tokens)
}
