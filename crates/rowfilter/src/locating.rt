//! Where in the text of a filter a fault stands.

ghost use Rattle.std.specs.Prelude.{◌≡◌, ◌≤◌, IfOk, length};

use crate::reading::{MOST_BYTES, condition_of};
use conditions::{
    FilterFault, FilterWord, MOST_LEVELS, ParserState, Part, Pending, Token, behind_blanks,
    token_of,
};
use std::alloc::{AllocError, Global};
use std::mem;
use tables::{Column, Table};

/// What is looked for among the words of a text.
#[derive(Clone, Copy)]
enum Sought {
    /// A word that can't stand where it does.
    Stranger,
    /// An integer of over 64 bits.
    LargeNumber,
    /// The word after which there are too many levels.
    Depth,
    /// A column that the table doesn't have.
    UnknownColumn,
    /// The operand after so many others.
    Operand(usize),
}

/// The byte of the text at which the fault stands that `parse` told of it, so that it can be marked where it is shown. What is
/// missing at the end is told there; of two sides of different kinds, the second is told. `AllocError` where memory is refused.
pub fn fault_at(
    alloc: Global,
    text: &str,
    table: &Table,
    fault: FilterFault,
) -> Result<usize, AllocError>
    ensures { IfOk result (λ at. at ≤ length text.now) }
{
    let columns = table.columns.as_slice();
    let sought = match fault {
        FilterFault::Syntax if text.len() > MOST_BYTES => return Ok(MOST_BYTES),
        FilterFault::Syntax => Sought::Stranger,
        FilterFault::NumberRange => Sought::LargeNumber,
        FilterFault::TooDeep => Sought::Depth,
        FilterFault::UnknownColumn => Sought::UnknownColumn,
        FilterFault::TypeMismatch => Sought::Operand(mismatch_of(alloc, text, columns)),
        FilterFault::Memory => return Ok(0),
    };
    word_at(alloc, text.as_bytes(), columns, sought)
}

/// The operand of another kind than its place asks.
fn mismatch_of(alloc: Global, text: &str, columns: &[Column]) -> usize {
    match condition_of(alloc, text, columns) {
        Ok(expression) => expression.mismatch(columns, true).unwrap_or(0),
        Err(_) => 0,
    }
}

/// The byte at which the word begins that is looked for; the end of the text where there is none.
fn word_at(
    alloc: Global,
    text: &[u8],
    columns: &[Column],
    sought: Sought,
) -> Result<usize, AllocError>
    ensures { IfOk result (λ at. at ≤ length text.now) }
{
    let mut search = Search {
        sought,
        pending: Vec::new(alloc),
        place: ParserState::Wanting,
    };
    end_of(alloc, &mut search, text, columns)
}

/// Where the search ends.
fn end_of(
    alloc: Global,
    search: &mut Search,
    text: &[u8],
    columns: &[Column],
) -> Result<usize, AllocError>
    ensures { IfOk result (λ at. at ≤ length text.now) }
{
    let mut rest = text;
    while let Some((token, tail)) = token_of(alloc, rest)? {
        let ends = search.ends_at(alloc, &token, columns);
        // Let go before the ways out, which keeps the proof short.
        drop(token);
        if ends? {
            return Ok(text.len().saturating_sub(behind_blanks(rest).len()));
        }
        rest = tail;
    }
    Ok(text.len())
}

/// A text that is read once more, word by word.
#[derive(Drop)]
struct Search {
    sought: Sought,
    pending: Vec<Pending>,
    place: ParserState,
}

impl Search {
    /// Whether the word of this token is the one, or can't be read on.
    fn ends_at(
        &mut self,
        alloc: Global,
        token: &Token,
        columns: &[Column],
    ) -> Result<bool, AllocError> {
        let word = FilterWord::of(alloc, token, columns)?;
        if is_met(self.sought, &self.place, &word, columns.len()) {
            return Ok(true);
        }
        self.sought = behind(self.sought, &self.place, &word);
        self.ends_after(alloc, word)
    }

    fn ends_after(&mut self, alloc: Global, word: FilterWord) -> Result<bool, AllocError> {
        let place = mem::replace(&mut self.place, ParserState::Wanting);
        match place.next(alloc, &mut self.pending, word) {
            Ok(next) => drop(mem::replace(&mut self.place, next)),
            Err(FilterFault::Memory) => return Err(AllocError),
            Err(_) => return Ok(true),
        }
        let is_depth = matches!(self.sought, Sought::Depth);
        Ok(is_depth && is_deep(self.pending.as_slice(), &self.place))
    }
}

/// Whether the word is the one that is looked for.
fn is_met(sought: Sought, place: &ParserState, word: &FilterWord, columns: usize) -> bool {
    let (ParserState::Wanting, FilterWord::Operand(part, _)) = (place, word) else {
        return false;
    };
    match (sought, &part.tree) {
        (Sought::LargeNumber, Err(_)) => true,
        (Sought::UnknownColumn, Ok(tree)) => !tree.expression.is_known(columns),
        (Sought::Operand(others), _) => others == 0,
        _ => false,
    }
}

/// What is looked for after this word.
fn behind(sought: Sought, place: &ParserState, word: &FilterWord) -> Sought {
    match (sought, place, word) {
        (Sought::Operand(others), ParserState::Wanting, FilterWord::Operand(_, _)) => {
            Sought::Operand(others.saturating_sub(1))
        }
        _ => sought,
    }
}

/// Whether there are too many levels, whatever follows.
fn is_deep(pending: &[Pending], place: &ParserState) -> bool {
    if pending.len() >= MOST_LEVELS {
        return true;
    }
    match (pending.last(), place) {
        (Some(Pending::Joint(_, left)), ParserState::Wanting) => is_highest(left),
        (_, ParserState::Asking(part, _)) => is_highest(part),
        (_, ParserState::Having(part)) => is_too_deep(part),
        _ => false,
    }
}

fn is_too_deep(part: &Part) -> bool {
    matches!(part.tree, Err(FilterFault::TooDeep))
}

/// Whether one level more is too many.
fn is_highest(part: &Part) -> bool {
    match &part.tree {
        Ok(tree) => tree.levels >= MOST_LEVELS,
        Err(_) => is_too_deep(part),
    }
}
