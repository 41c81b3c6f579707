//! A condition laid out flat: what is asked of a row step by step, and where each answer leads.

ghost use Rattle.std.specs.Prelude.{◌≡◌, ◌^◌, IfOk, slice_get};
ghost use Rattle.conditions.specs.Conditions.{Bytes, Number};
ghost use Rattle.conditions.specs.Shapes.{shape};
ghost use Rattle.conditions.specs.Steps.{IsNumberOf, condition_asked, next_number, number_asked, text_asked, turn_of, whole_number};
ghost use Rattle.conditions.specs.Truth.{datum_at, is_true, truth as truth_in, truth_of_comparison};

use crate::expression::Expression;
use crate::literal::Literal;
use crate::truth::Truth;
use crate::values::comparison::Comparison;
use crate::values::kinds::{number_of, text_against, text_holds};
use pqformat::Items;
use std::alloc::{AllocError, Global};
use tables::{RowRef, ValueRef};

/// What is asked of a row, and what is asked next where it is true, and where it isn't: 0 is nothing, and the condition is not
/// true; 1 is nothing, and it is; 2 is the step at place 0, and so on.
#[derive(Drop)]
pub struct Step {
    pub(crate) asked: StepCondition,
    pub(crate) next_if_true: usize,
    pub(crate) next_if_not: usize,
}

impl Step {
    /// The number of the step that is asked next, after this answer.
    pub(crate) fn next(&self, answer: bool) -> usize
        ensures { result ≡ next_number answer (turn_of self.now) }
    {
        if answer {
            self.next_if_true
        } else {
            self.next_if_not
        }
    }
}

/// A comparison of the column at a place with a literal, each sign and kind that is asked often by itself; or another condition.
#[derive(Drop)]
pub(crate) enum StepCondition {
    Equal(u32, i64),
    NotEqual(u32, i64),
    Less(u32, i64),
    Greater(u32, i64),
    LessOrEqual(u32, i64),
    GreaterOrEqual(u32, i64),
    SameText(usize, Items<u8>),
    OtherText(usize, Items<u8>),
    Text(Comparison, usize, Items<u8>),
    Other(Box<Expression>),
}

impl StepCondition {
    pub(crate) fn of(alloc: Global, condition: &Expression) -> Result<StepCondition, AllocError>
        ensures { IfOk result (λ a. condition_asked a ≡ shape condition.now) }
    {
        if let Expression::Compare(how, a, b) = condition {
            if let (Expression::Column(place), Expression::Literal(literal)) = (&**a, &**b) {
                match literal {
                    Literal::Number(number) => {
                        if let Ok(place) = u32::try_from(*place) {
                            return Ok(StepCondition::of_number(*how, place, *number));
                        }
                    }
                    Literal::Text(text) => {
                        let copy = Vec::from_slice(alloc, text.as_slice())?;
                        return Ok(StepCondition::of_text(*how, *place, Items::new(copy)));
                    }
                    Literal::Null | Literal::Bool(_) => {}
                }
            }
        }
        Ok(StepCondition::Other(condition.boxed_copy(alloc)?))
    }

    fn of_number(how: Comparison, place: u32, number: i64) -> StepCondition
        ensures { condition_asked result ≡ number_asked how place number }
    {
        match how {
            Comparison::Equal => StepCondition::Equal(place, number),
            Comparison::NotEqual => StepCondition::NotEqual(place, number),
            Comparison::Less => StepCondition::Less(place, number),
            Comparison::Greater => StepCondition::Greater(place, number),
            Comparison::LessOrEqual => StepCondition::LessOrEqual(place, number),
            Comparison::GreaterOrEqual => StepCondition::GreaterOrEqual(place, number),
        }
    }

    fn of_text(how: Comparison, place: usize, text: Items<u8>) -> StepCondition
        ensures { condition_asked result ≡ text_asked how place text }
    {
        match how {
            Comparison::Equal => StepCondition::SameText(place, text),
            Comparison::NotEqual => StepCondition::OtherText(place, text),
            _ => StepCondition::Text(how, place, text),
        }
    }

    pub(crate) fn holds(&self, row: &RowRef<'_>, last: &mut NumberRead) -> bool
        requires { IsNumberOf row.now last.old }
        ensures answer { result ≡ is_true (truth_in (condition_asked self.now) row.now) }
        ensures read { IsNumberOf row.now last.new }
    {
        match self {
            StepCondition::Equal(at, n) => is_number(row, last, *at, Comparison::Equal, n),
            StepCondition::NotEqual(at, n) => is_number(row, last, *at, Comparison::NotEqual, n),
            StepCondition::Less(at, n) => is_number(row, last, *at, Comparison::Less, n),
            StepCondition::Greater(at, n) => is_number(row, last, *at, Comparison::Greater, n),
            StepCondition::LessOrEqual(at, n) => is_number(
                row,
                last,
                *at,
                Comparison::LessOrEqual,
                n,
            ),
            StepCondition::GreaterOrEqual(at, n) => is_number(
                row,
                last,
                *at,
                Comparison::GreaterOrEqual,
                n,
            ),
            StepCondition::SameText(at, text) => is_text(
                row,
                *at,
                Comparison::Equal,
                text.as_slice(),
            ),
            StepCondition::OtherText(at, text) => is_text(
                row,
                *at,
                Comparison::NotEqual,
                text.as_slice(),
            ),
            StepCondition::Text(how, at, text) => is_text(row, *at, *how, text.as_slice()),
            StepCondition::Other(condition) => condition.truth(row).is_true(),
        }
    }
}

/// The number that was read last of a row, and the place of its column, so that a column that is asked again is not read again.
/// The place of `none` is beyond those of all steps.
#[derive(Clone, Copy)]
pub(crate) struct NumberRead {
    pub(crate) place: usize,
    pub(crate) number: i64,
}

impl NumberRead {
    pub(crate) fn none() -> NumberRead
        ensures { result.place ≡ 2 ^ 32 }
    {
        NumberRead {
            place: 1 << 32,
            number: 0,
        }
    }
}

/// Whether the column at this place is a number that compares so with another. There is a copy of it for each sign.
#[inline(always)]
fn is_number(
    row: &RowRef<'_>,
    last: &mut NumberRead,
    place: u32,
    how: Comparison,
    number: &i64,
) -> bool
    requires { IsNumberOf row.now last.old }
    ensures answer { result ≡ is_true
        (truth_of_comparison how (datum_at (slice_get row.now place)) (Number number.now)) }
    ensures read { IsNumberOf row.now last.new }
{
    let place = place as usize;
    if place != last.place {
        let Some(read) = number_at(row, place) else {
            return false;
        };
        last.number = read;
    }
    last.place = place;
    Truth::of(how.holds(last.number.cmp(number))).is_true()
}

/// The number in the column at this place.
#[inline]
fn number_at(row: &RowRef<'_>, place: usize) -> Option<i64>
    ensures { result ≡ whole_number (datum_at (slice_get row.now place)) }
{
    number_of(row.get(place)?)
}

/// The same of a text.
#[inline(always)]
fn is_text(row: &RowRef<'_>, place: usize, how: Comparison, text: &[u8]) -> bool
    ensures { result
        ≡ is_true (truth_of_comparison how (datum_at (slice_get row.now place)) (Bytes text.now)) }
{
    match row.get(place) {
        Some(ValueRef::Text(value)) => Truth::of(text_holds(how, value, text)).is_true(),
        _ => is_other_text(row, place, how, text),
    }
}

/// The same where the column may hold something else.
#[inline(never)]
fn is_other_text(row: &RowRef<'_>, place: usize, how: Comparison, text: &[u8]) -> bool
    ensures { result
        ≡ is_true (truth_of_comparison how (datum_at (slice_get row.now place)) (Bytes text.now)) }
{
    match row.get(place) {
        Some(value) => text_against(how, value, text).is_true(),
        None => false,
    }
}
