//! Which values can be compared, and which are true or false.

ghost use Rattle.std.specs.Prelude.{◌≡◌, ◌&&◌};
ghost use Rattle.conditions.specs.Kinds.{are_compared, is_asked, is_truth, of_one, of_two, sort_of_datum, sort_of_text, truths_if};
ghost use Rattle.conditions.specs.Shapes.{literal_datum};
ghost use Rattle.tables.specs.Kinds.{uuid_of_text};

use crate::literal::Literal;
use crate::values::is_test::IsTest;
use tables::uuid_of_text;

/// The kind of an operand. Integers of all widths are one; null is of any. A text in the condition that spells a UUID is of two:
/// it is compared with texts and with UUIDs.
#[derive(Clone, Copy)]
pub enum Sort {
    Any,
    Truths,
    Numbers,
    Texts,
    UuidTexts,
    Uuids,
    /// Of a kind whose values aren't compared.
    Incomparable,
}

impl Sort {
    pub(crate) fn of_literal(literal: &Literal) -> Sort
        ensures { result ≡ sort_of_datum (literal_datum literal.now) }
    {
        match literal {
            Literal::Null => Sort::Any,
            Literal::Bool(_) => Sort::Truths,
            Literal::Number(_) => Sort::Numbers,
            Literal::Text(text) => Sort::of_text(text.as_slice()),
        }
    }

    fn of_text(text: &[u8]) -> Sort
        ensures { result ≡ sort_of_text (uuid_of_text text.now) }
    {
        match uuid_of_text(text) {
            Some(_) => Sort::UuidTexts,
            None => Sort::Texts,
        }
    }

    pub(crate) fn is_compared(self, other: Sort) -> bool
        ensures { result ≡ are_compared self other }
    {
        match (self, other) {
            (Sort::Any, _) | (_, Sort::Any) => true,
            (Sort::Truths, Sort::Truths) => true,
            (Sort::Numbers, Sort::Numbers) => true,
            (Sort::Texts | Sort::UuidTexts, Sort::Texts | Sort::UuidTexts) => true,
            (Sort::Uuids | Sort::UuidTexts, Sort::Uuids | Sort::UuidTexts) => true,
            _ => false,
        }
    }

    /// Whether it stands as a condition.
    pub fn is_truth(self) -> bool
        ensures { result ≡ is_truth self }
    {
        match self {
            Sort::Any | Sort::Truths => true,
            Sort::Numbers | Sort::Texts | Sort::UuidTexts | Sort::Uuids => false,
            Sort::Incomparable => false,
        }
    }

    pub(crate) fn is_asked(self, question: IsTest) -> bool
        ensures { result ≡ is_asked question self }
    {
        match question {
            IsTest::Null => true,
            _ => self.is_truth(),
        }
    }
}

/// The kind of a condition, if its parts are of the kinds that it takes.
fn truths_if(fits: bool) -> Option<Sort>
    ensures { result ≡ truths_if fits }
{
    if fits { Some(Sort::Truths) } else { None }
}

/// The kind of a comparison of these two.
pub(crate) fn sort_compared(left: Option<Sort>, right: Option<Sort>) -> Option<Sort>
    ensures { result ≡ of_two are_compared left right }
{
    truths_if(left?.is_compared(right?))
}

/// The kind of AND and OR of these two.
pub(crate) fn sort_joined(left: Option<Sort>, right: Option<Sort>) -> Option<Sort>
    ensures { result ≡ of_two (λ s t. is_truth s && is_truth t) left right }
{
    let left = left?;
    let right = right?;
    truths_if(left.is_truth() && right.is_truth())
}

/// The kind of the question about this.
pub(crate) fn sort_asked(question: IsTest, inner: Option<Sort>) -> Option<Sort>
    ensures { result ≡ of_one (is_asked question) inner }
{
    truths_if(inner?.is_asked(question))
}

/// The kind of NOT before this.
pub(crate) fn sort_denied(inner: Option<Sort>) -> Option<Sort>
    ensures { result ≡ of_one is_truth inner }
{
    truths_if(inner?.is_truth())
}
