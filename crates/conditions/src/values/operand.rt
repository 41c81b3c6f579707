//! What an operand of a condition is in a row.

ghost use Rattle.std.specs.Prelude.{◌≡◌, option_map};
ghost use Rattle.conditions.specs.Truth.{answer_to_question, datum_of_truth, ordering_of, truth_of, truth_of_comparison};
ghost use Rattle.conditions.specs.Shapes.{datum_of_operand, literal_datum};

use crate::literal::Literal;
use crate::truth::Truth;
use crate::values::comparison::Comparison;
use crate::values::is_test::IsTest;
use std::cmp::Ordering;
use tables::uuid_of_text;

/// A value as conditions see it: integers of all widths are alike, and a text is lent. Unknown is null.
#[derive(Clone, Copy)]
pub(crate) enum Operand<'a> {
    Null,
    Bool(bool),
    Number(i64),
    Text(&'a [u8]),
    Uuid(u128),
}

impl<'a> Operand<'a> {
    pub(crate) fn of_literal(literal: &'a Literal) -> Operand<'a>
        ensures { datum_of_operand result ≡ literal_datum literal.now }
    {
        match literal {
            Literal::Null => Operand::Null,
            Literal::Bool(b) => Operand::Bool(*b),
            Literal::Number(n) => Operand::Number(*n),
            Literal::Text(bytes) => Operand::Text(bytes.as_slice()),
        }
    }

    pub(crate) fn of_truth(truth: Truth) -> Operand<'a>
        ensures { datum_of_operand result ≡ datum_of_truth truth }
    {
        match truth {
            Truth::True => Operand::Bool(true),
            Truth::False => Operand::Bool(false),
            Truth::Unknown => Operand::Null,
        }
    }

    pub(crate) fn truth(self) -> Truth
        ensures { result ≡ truth_of (datum_of_operand self.entry) }
    {
        match self {
            Operand::Bool(holds) => Truth::of(holds),
            _ => Truth::Unknown,
        }
    }

    /// How the two stand to each other; None where one is null, or they are of kinds that aren't compared.
    fn order(self, other: Operand<'a>) -> Option<Ordering>
        ensures { result
            ≡ ordering_of (datum_of_operand self.entry) (datum_of_operand other.entry) }
    {
        match (self, other) {
            (Operand::Bool(a), Operand::Bool(b)) => Some(a.cmp(&b)),
            (Operand::Number(m), Operand::Number(n)) => Some(m.cmp(&n)),
            (Operand::Text(s), Operand::Text(t)) => Some(s.cmp(t)),
            (Operand::Uuid(m), Operand::Uuid(n)) => Some(m.cmp(&n)),
            (Operand::Uuid(m), Operand::Text(text)) => Some(m.cmp(&uuid_of_text(text)?)),
            (Operand::Text(text), Operand::Uuid(n)) => Some(uuid_of_text(text)?.cmp(&n)),
            _ => None,
        }
    }

    pub(crate) fn compared(self, how: Comparison, other: Operand<'a>) -> Truth
        ensures { result
            ≡ truth_of_comparison how (datum_of_operand self.entry) (datum_of_operand other.entry) }
    {
        match self.order(other) {
            Some(order) => Truth::of(how.holds(order)),
            None => Truth::Unknown,
        }
    }

    /// The answer to what IS asks of it, which is never unknown.
    pub(crate) fn is(self, question: IsTest) -> bool
        ensures { result ≡ answer_to_question question (datum_of_operand self.entry) }
    {
        match (question, self) {
            (IsTest::Null | IsTest::Unknown, Operand::Null) => true,
            (IsTest::True, Operand::Bool(holds)) => holds,
            (IsTest::False, Operand::Bool(holds)) => !holds,
            _ => false,
        }
    }
}
