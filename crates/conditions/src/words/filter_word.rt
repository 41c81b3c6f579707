//! The words of a filter: what its tokens say over the columns of a table.

ghost use Rattle.std.specs.Prelude.{◌≡◌, IfOk, map, [], None};
ghost use Rattle.std.specs.Char.{to_ascii_lowercase};
ghost use Rattle.std.specs.Str.{bytes_eq};
ghost use Rattle.conditions.specs.declared.words.token.Token.TheVariants.{Mark, Pair};
ghost use Rattle.conditions.specs.Conditions.{Bytes, Column as the_column, Literal as the_literal};
ghost use Rattle.conditions.specs.Grammar.{place_of};
ghost use Rattle.conditions.specs.Parts.{leaf, word_at, word_said_of};
ghost use Rattle.conditions.specs.Shapes.{literal_datum};
ghost use Rattle.conditions.specs.Stacks.{Operand};
ghost use Rattle.conditions.specs.Views.{seen_word};
ghost use Rattle.conditions.specs.Words.{said_by_word};

use crate::expression::Expression;
use crate::literal::Literal;
use crate::trees::joint::Joint;
use crate::trees::part::Part;
use crate::values::comparison::Comparison;
use crate::values::is_test::IsTest;
use crate::words::number::integer;
use crate::words::token::Token;
use pqformat::Items;
use std::alloc::{AllocError, Global};
use tables::Column;

/// What a token says. NULL, TRUE, FALSE and a bare `unknown` are operands, and after IS they are what it asks.
#[derive(Drop)]
pub enum FilterWord {
    Joint(Joint),
    Not,
    Is,
    Open,
    Close,
    Operand(Part, Option<IsTest>),
    Stray,
}

impl FilterWord {
    /// What the token says over these columns. `AllocError` where memory for it is refused.
    pub fn of(alloc: Global, token: &Token, columns: &[Column]) -> Result<FilterWord, AllocError>
        ensures { IfOk result (λ w. seen_word w ≡ word_at columns.now token.now) }
    {
        match token {
            Token::Word(bytes) => of_bare(alloc, bytes.as_slice(), columns),
            Token::Number(bytes) => Ok(FilterWord::Operand(
                Part::number(integer(bytes.as_slice())),
                None,
            )),
            Token::Quoted(name) => Ok(of_name(name.as_slice(), columns, None)),
            Token::Text(text) => of_text(alloc, text.as_slice()),
            Token::Mark(b) => Ok(of_mark(*b)),
            Token::Pair(b, c) => Ok(of_pair(*b, *c)),
            Token::Stray => Ok(FilterWord::Stray),
        }
    }
}

/// The place of the column with this name; the number of columns where none has it.
fn place_of(columns: &[Column], name: &[u8]) -> usize
    ensures { result ≡ place_of columns.now name.now }
{
    let mut place = 0;
    for column in columns {
        if column.name.as_str().as_bytes() == name {
            return place;
        }
        place += 1;
    }
    place
}

fn of_name(name: &[u8], columns: &[Column], question: Option<IsTest>) -> FilterWord
    ensures { seen_word result
        ≡ Operand (leaf (the_column (place_of columns.now name.now))) question }
{
    let place = place_of(columns, name);
    FilterWord::Operand(Part::leaf(Expression::Column(place)), question)
}

fn of_literal(literal: Literal, question: Option<IsTest>) -> FilterWord
    ensures { seen_word result ≡ Operand (leaf (the_literal (literal_datum literal))) question }
{
    FilterWord::Operand(Part::leaf(Expression::Literal(literal)), question)
}

fn of_text(alloc: Global, text: &[u8]) -> Result<FilterWord, AllocError>
    ensures { IfOk result (λ w. seen_word w ≡ Operand (leaf (the_literal (Bytes text.now))) None) }
{
    let bytes = Vec::from_slice(alloc, text)?;
    Ok(of_literal(Literal::Text(Items::new(bytes)), None))
}

/// A keyword in either case, or else a bare name, which is meant in lower case (PostgreSQL 15, 4.1.1).
fn of_bare(alloc: Global, bytes: &[u8], columns: &[Column]) -> Result<FilterWord, AllocError>
    ensures { IfOk result
        (λ w. seen_word w
        ≡ word_said_of columns.now (said_by_word (map to_ascii_lowercase bytes.now))) }
{
    let folded = bytes.to_ascii_lowercase(alloc)?;
    Ok(of_folded(folded.as_slice(), columns))
}

fn is(folded: &[u8], keyword: &str) -> bool
    ensures { result ≡ bytes_eq folded.now keyword.now }
{
    folded == keyword.as_bytes()
}

fn of_folded(folded: &[u8], columns: &[Column]) -> FilterWord
    ensures { seen_word result ≡ word_said_of columns.now (said_by_word folded.now) }
{
    if is(folded, "and") {
        return FilterWord::Joint(Joint::And);
    }
    if is(folded, "or") {
        return FilterWord::Joint(Joint::Or);
    }
    if is(folded, "not") {
        return FilterWord::Not;
    }
    if is(folded, "is") {
        return FilterWord::Is;
    }
    if is(folded, "null") {
        return of_literal(Literal::Null, Some(IsTest::Null));
    }
    if is(folded, "true") {
        return of_literal(Literal::Bool(true), Some(IsTest::True));
    }
    if is(folded, "false") {
        return of_literal(Literal::Bool(false), Some(IsTest::False));
    }
    if is(folded, "unknown") {
        return of_name("unknown".as_bytes(), columns, Some(IsTest::Unknown));
    }
    of_name(folded, columns, None)
}

/// A bracket, or a comparison of one byte.
fn of_mark(b: u8) -> FilterWord
    ensures { seen_word result ≡ word_at [] (Mark b) }
{
    match b {
        b'(' => FilterWord::Open,
        b')' => FilterWord::Close,
        b'=' => FilterWord::Joint(Joint::Comparison(Comparison::Equal)),
        b'<' => FilterWord::Joint(Joint::Comparison(Comparison::Less)),
        b'>' => FilterWord::Joint(Joint::Comparison(Comparison::Greater)),
        _ => FilterWord::Stray,
    }
}

/// A comparison of two bytes.
fn of_pair(b: u8, c: u8) -> FilterWord
    ensures { seen_word result ≡ word_at [] (Pair b c) }
{
    let how = if b == b'!' || c == b'>' {
        Comparison::NotEqual
    } else if b == b'<' {
        Comparison::LessOrEqual
    } else {
        Comparison::GreaterOrEqual
    };
    FilterWord::Joint(Joint::Comparison(how))
}
