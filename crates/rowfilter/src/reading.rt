//! From a text to the filter that it spells.

ghost use Rattle.std.specs.Prelude.{[], ◌≡◌, ◌≤◌, IfErr, IfOk, length, map, MatchResult};
ghost use Rattle.rowfilter.specs.Answers.{Answers, read_filter};
ghost use Rattle.conditions.specs.Conditions.{Condition};
ghost use Rattle.conditions.specs.Grammar.{IsRefused, MOST_BYTES, SpellsCondition, SpellsFilter};
ghost use Rattle.conditions.specs.Parts.{parts, word_at};
ghost use Rattle.rowfilter.specs.Readings.{GivesFilter, IsJudged, IsUnspelled, IsUnread, expression_of};
ghost use Rattle.conditions.specs.Shapes.{shape};
ghost use Rattle.conditions.specs.Stacks.{Wanting, run, step};
ghost use Rattle.conditions.specs.Tokens.{Spells};
ghost use Rattle.conditions.specs.Views.{GivesPart, Moves, state_of};

use crate::filter::Filter;
use conditions::{
    Expression, FilterFault, FilterWord, ParserState, Part, Pending, Token, read_tokens, whole,
};
use std::alloc::Global;
use tables::{Column, Table};

/// The longest text of a filter, in bytes.
pub const MOST_BYTES: usize = 4096;

/// The filter of this table that the text spells.
///
/// From the loosest to the tightest: OR, AND, NOT, `IS [NOT] NULL`, `TRUE`, `FALSE` or `UNKNOWN`, and one comparison of
/// `= <> != < > <= >=` (PostgreSQL 15, 4.1.6 and 9.2). Operands are columns, integers, `'texts'`, TRUE, FALSE, NULL and
/// parentheses. It takes no more stack for a deep text than for a flat one.
///
/// A text that isn't written so, or is over 4,096 bytes, is `Syntax` (X1). A number of over 64 bits is `NumberRange` (X4), over
/// 64 levels are `TooDeep` (X5), a column that the table doesn't have is `UnknownColumn` (X2), and values of kinds that don't
/// go together, or a text that is no condition, are `TypeMismatch` (X3). Of several faults the first in this order is told. Or
/// `Memory` (X6).
pub fn parse(alloc: Global, text: &str, table: &Table) -> Result<Filter, FilterFault>
    ensures found { IfOk result (λ f. SpellsFilter table.now text.now f) }
    ensures only { (c : Condition) → SpellsFilter table.now text.now c → GivesFilter result c }
    ensures fault { IfErr result (λ e. IsRefused table.now text.now e) }
    ensures answer { Answers result (read_filter table.now text.now) }
{
    filter_of(alloc, text, table)
}

/// The same, with one clause for both cases.
fn filter_of(alloc: Global, text: &str, table: &Table) -> Result<Filter, FilterFault>
    ensures { MatchResult result (λ f. SpellsFilter table.now text.now f)
        (λ e. IsRefused table.now text.now e) }
{
    let columns = table.columns.as_slice();
    let expression = condition_of(alloc, text, columns)?;
    if let Err(fault) = judge(&expression, columns) {
        // Let go by one call, which keeps the proof short.
        drop(expression);
        return Err(fault);
    }
    Ok(Filter::new(alloc, expression)?)
}

/// The tokens of a text that isn't too long.
fn short_tokens(alloc: Global, text: &str) -> Result<Vec<Token>, FilterFault>
    ensures found { IfOk result
        (λ tokens. (length text.now ≤ MOST_BYTES) × Spells text.now tokens.items) }
    ensures fault { IfErr result (λ e. IsUnspelled text.now e) }
{
    if text.len() > MOST_BYTES {
        return Err(FilterFault::Syntax);
    }
    read_tokens(alloc, text)
}

/// What the tokens are read as, word by word.
fn part_of(alloc: Global, tokens: &[Token], columns: &[Column]) -> Result<Part, FilterFault>
    ensures { GivesPart result (run parts (Wanting []) (map (word_at columns.now) tokens.now)) }
{
    let mut pending = Vec::new(alloc);
    let mut place = ParserState::Wanting;
    for token in tokens {
        place = place_after(alloc, &mut pending, place, token, columns)?;
    }
    whole(alloc, &mut pending, place)
}

/// The place after the word of one token more.
fn place_after(
    alloc: Global,
    pending: &mut Vec<Pending>,
    place: ParserState,
    token: &Token,
    columns: &[Column],
) -> Result<ParserState, FilterFault>
    ensures { Moves result pending.new.items
        (step parts (state_of pending.old.items place) (word_at columns.now token.now)) }
{
    let word = FilterWord::of(alloc, token, columns)?;
    place.next(alloc, pending, word)
}

fn expression_of(part: Result<Part, FilterFault>) -> Result<Expression, FilterFault>
    ensures { result ≡ expression_of part }
{
    match part {
        Ok(part) => match part.tree {
            Ok(tree) => Ok(tree.expression),
            Err(fault) => Err(fault),
        },
        Err(fault) => Err(fault),
    }
}

/// The condition that the text spells over these columns, whatever their kinds.
pub(crate) fn condition_of(
    alloc: Global,
    text: &str,
    columns: &[Column],
) -> Result<Expression, FilterFault>
    ensures { MatchResult result (λ e. SpellsCondition columns.now text.now (shape e))
        (λ fault. IsUnread text.now fault) }
{
    let tokens = short_tokens(alloc, text)?;
    expression_of(part_of(alloc, tokens.as_slice(), columns))
}

/// Whether its columns are there, and their kinds go together.
fn judge(expression: &Expression, columns: &[Column]) -> Result<(), FilterFault>
    ensures { IsJudged columns.now (shape expression.now) result }
{
    if !expression.is_known(columns.len()) {
        return Err(FilterFault::UnknownColumn);
    }
    match expression.sort(columns) {
        Some(sort) if sort.is_truth() => Ok(()),
        _ => Err(FilterFault::TypeMismatch),
    }
}
