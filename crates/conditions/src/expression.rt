//! A condition as a tree, and what it is in a row.

ghost use Rattle.std.specs.Prelude.{◌≡◌, IfOk, OnOk};
ghost use Rattle.conditions.specs.Truth.{truth as truth_in, truth_of_comparison, value_in};
ghost use Rattle.conditions.specs.Conditions.{names};
ghost use Rattle.conditions.specs.Kinds.{are_known, sort_of};
ghost use Rattle.conditions.specs.Shapes.{datum_of_operand, literal_datum, shape, with_places_of};

use crate::literal::Literal;
use crate::truth::Truth;
use crate::values::against::column_against;
use crate::values::comparison::Comparison;
use crate::values::is_test::IsTest;
use crate::values::operand::Operand;
use crate::values::sort::{Sort, sort_asked, sort_compared, sort_denied, sort_joined};
use std::alloc::{AllocError, Global};
use tables::{Column, RowRef};

/// A condition, or an operand of one.
#[derive(Drop)]
pub enum Expression {
    /// The column at this place of its table.
    Column(usize),
    Literal(Literal),
    Compare(Comparison, Box<Expression>, Box<Expression>),
    /// IS, or IS NOT where the flag is set.
    Is(IsTest, bool, Box<Expression>),
    Not(Box<Expression>),
    And(Box<Expression>, Box<Expression>),
    Or(Box<Expression>, Box<Expression>),
}

impl Expression {
    /// A copy; `AllocError` where memory for it is refused.
    #[cycle(copying)]
    pub fn copy(&self, alloc: Global) -> Result<Expression, AllocError>
        ensures { IfOk result (λ e. shape e ≡ shape self.now) }
    {
        Ok(match self {
            Expression::Column(place) => Expression::Column(*place),
            Expression::Literal(literal) => Expression::Literal(literal.copy(alloc)?),
            Expression::Compare(how, a, b) => {
                Expression::Compare(*how, a.boxed_copy(alloc)?, b.boxed_copy(alloc)?)
            }
            Expression::Is(question, is_negated, a) => {
                Expression::Is(*question, *is_negated, a.boxed_copy(alloc)?)
            }
            Expression::Not(a) => Expression::Not(a.boxed_copy(alloc)?),
            Expression::And(a, b) => { Expression::And(a.boxed_copy(alloc)?, b.boxed_copy(alloc)?) }
            Expression::Or(a, b) => Expression::Or(a.boxed_copy(alloc)?, b.boxed_copy(alloc)?),
        })
    }

    #[cycle(copying)]
    pub(crate) fn boxed_copy(&self, alloc: Global) -> Result<Box<Expression>, AllocError>
        ensures { IfOk result (λ e. shape e.value ≡ shape self.now) }
    {
        Ok(Box::new(alloc, self.copy(alloc)?)?)
    }

    /// What it is in the row.
    pub(crate) fn evaluate<'a>(&'a self, row: &RowRef<'a>) -> Operand<'a>
        ensures { datum_of_operand result ≡ value_in row.now (shape self.now) }
    {
        match self {
            Expression::Column(place) => match row.get(*place) {
                Some(value) => Operand::of_value(value),
                None => Operand::Null,
            },
            Expression::Literal(literal) => Operand::of_literal(literal),
            Expression::Compare(how, a, b) => {
                Operand::of_truth(a.evaluate(row).compared(*how, b.evaluate(row)))
            }
            Expression::Is(question, is_negated, a) => {
                Operand::Bool(a.evaluate(row).is(*question) != *is_negated)
            }
            Expression::Not(a) => Operand::of_truth(a.evaluate(row).truth().not()),
            Expression::And(a, b) => {
                Operand::of_truth(a.evaluate(row).truth().and(b.evaluate(row).truth()))
            }
            Expression::Or(a, b) => {
                Operand::of_truth(a.evaluate(row).truth().or(b.evaluate(row).truth()))
            }
        }
    }

    /// What it is of the row, as a condition. A side that decides alone is all that is asked.
    #[tactic(auto, using(crate::proofs::Truths::truth_again))]
    pub fn truth(&self, row: &RowRef<'_>) -> Truth
        ensures { result ≡ truth_in (shape self.now) row.now }
    {
        match self {
            Expression::Compare(how, a, b) => match &**b {
                Expression::Literal(literal) => a.against(*how, literal, row),
                _ => a.operand(&*row).compared(*how, b.operand(&*row)),
            },
            Expression::Not(a) => a.truth(row).not(),
            Expression::And(a, b) => match a.truth(row) {
                Truth::False => Truth::False,
                left => left.and(b.truth(row)),
            },
            Expression::Or(a, b) => match a.truth(row) {
                Truth::True => Truth::True,
                left => left.or(b.truth(row)),
            },
            Expression::Is(_, _, _) | Expression::Column(_) | Expression::Literal(_) => {
                self.evaluate(&*row).truth()
            }
        }
    }

    /// How it compares with the literal in the row.
    fn against(&self, how: Comparison, literal: &Literal, row: &RowRef<'_>) -> Truth
        ensures { result
            ≡ truth_of_comparison how (value_in row.now (shape self.now))
            (literal_datum literal.now) }
    {
        match self {
            Expression::Column(place) => column_against(how, row, *place, literal),
            _ => self
                .operand(row)
                .compared(how, Operand::of_literal(literal)),
        }
    }

    /// The same as `evaluate`, where it's mostly a column or a literal.
    fn operand<'a>(&'a self, row: &RowRef<'a>) -> Operand<'a>
        ensures { datum_of_operand result ≡ value_in row.now (shape self.now) }
    {
        match self {
            Expression::Column(place) => match row.get(*place) {
                Some(value) => Operand::of_value(value),
                None => Operand::Null,
            },
            Expression::Literal(literal) => Operand::of_literal(literal),
            _ => self.evaluate(row),
        }
    }

    /// Adds the columns that it names and that aren't there yet. `AllocError` where memory for them is refused.
    pub fn gather(&self, columns: &mut Vec<usize>) -> Result<(), AllocError>
        ensures { OnOk result
            (columns.new.items ≡ with_places_of (shape self.now) columns.old.items) }
    {
        match self {
            Expression::Column(place) => {
                if !columns.as_slice().contains(place) {
                    columns.push(*place)?;
                }
                Ok(())
            }
            Expression::Literal(_) => Ok(()),
            Expression::Is(_, _, a) | Expression::Not(a) => a.gather(columns),
            Expression::Compare(_, a, b) | Expression::And(a, b) | Expression::Or(a, b) => {
                a.gather(columns)?;
                b.gather(columns)
            }
        }
    }

    /// Of what kind it is over these columns; None where it names none of them, or kinds don't go together.
    pub fn sort(&self, columns: &[Column]) -> Option<Sort>
        ensures { result ≡ sort_of columns.now (shape self.now) }
    {
        match self {
            Expression::Column(place) => Some(Sort::of_kind(columns.get(*place)?.kind)),
            Expression::Literal(literal) => Some(Sort::of_literal(literal)),
            Expression::Compare(_, a, b) => sort_compared(a.sort(columns), b.sort(columns)),
            Expression::Is(question, _, a) => sort_asked(*question, a.sort(columns)),
            Expression::Not(a) => sort_denied(a.sort(columns)),
            Expression::And(a, b) | Expression::Or(a, b) => {
                sort_joined(a.sort(columns), b.sort(columns))
            }
        }
    }

    /// Whether each column that it names is one of so many.
    pub fn is_known(&self, count: usize) -> bool
        ensures { result ≡ are_known count (shape self.now) }
    {
        match self {
            Expression::Column(place) => *place < count,
            Expression::Literal(_) => true,
            Expression::Is(_, _, a) | Expression::Not(a) => a.is_known(count),
            Expression::Compare(_, a, b) | Expression::And(a, b) | Expression::Or(a, b) => {
                a.is_known(count) && b.is_known(count)
            }
        }
    }

    /// Whether it names the column at this place.
    pub fn names(&self, place: usize) -> bool
        ensures { result ≡ names (shape self.now) place }
    {
        match self {
            Expression::Column(named) => *named == place,
            Expression::Literal(_) => false,
            Expression::Is(_, _, a) | Expression::Not(a) => a.names(place),
            Expression::Compare(_, a, b) | Expression::And(a, b) | Expression::Or(a, b) => {
                a.names(place) || b.names(place)
            }
        }
    }

    /// How many operands it has.
    fn operands(&self) -> usize {
        match self {
            Expression::Column(_) | Expression::Literal(_) => 1,
            Expression::Is(_, _, a) | Expression::Not(a) => a.operands(),
            Expression::Compare(_, a, b) | Expression::And(a, b) | Expression::Or(a, b) => {
                a.operands().saturating_add(b.operands())
            }
        }
    }

    /// How many operands stand before the part that is of another kind than its place asks, the leftmost of them; of two that
    /// don't go together it's the second. None where all kinds are right; the flag says that a condition is asked.
    pub fn mismatch(&self, columns: &[Column], is_condition: bool) -> Option<usize> {
        if let Some(sort) = self.sort(columns) {
            return if is_condition && !sort.is_truth() {
                Some(0)
            } else {
                None
            };
        }
        match self {
            Expression::Column(_) | Expression::Literal(_) => Some(0),
            Expression::Is(IsTest::Null, _, a) => a.mismatch(columns, false),
            Expression::Is(_, _, a) | Expression::Not(a) => a.mismatch(columns, true),
            Expression::Compare(_, a, b) => match a.mismatch(columns, false) {
                Some(before) => Some(before),
                None => {
                    let within = b.mismatch(columns, false).unwrap_or(0);
                    Some(a.operands().saturating_add(within))
                }
            },
            Expression::And(a, b) | Expression::Or(a, b) => match a.mismatch(columns, true) {
                Some(before) => Some(before),
                None => Some(a.operands().saturating_add(b.mismatch(columns, true)?)),
            },
        }
    }
}
