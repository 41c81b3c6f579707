//! What the kinds of columns are to a condition, and how the values of each compare with a literal.

ghost use Rattle.std.specs.Prelude.{◌≡◌};
ghost use Rattle.tables.specs.Kinds.{value_of};
ghost use Rattle.conditions.specs.Conditions.{Bytes, Number};
ghost use Rattle.conditions.specs.Kinds.{datum_of, sort_of_kind};
ghost use Rattle.conditions.specs.Shapes.{datum_of_operand};
ghost use Rattle.conditions.specs.Steps.{whole_number};
ghost use Rattle.conditions.specs.Truth.{holds, truth_of_comparison};
ghost use Rattle.std.specs.Cmp.Lexicographic.{slice_cmp};
ghost use Rattle.std.specs.Ordering.{nat_cmp};

use crate::truth::Truth;
use crate::values::comparison::Comparison;
use crate::values::operand::Operand;
use crate::values::sort::Sort;
use tables::{Kind, ValueRef, uuid_of_halves, uuid_of_text};

impl Sort {
    pub(crate) fn of_kind(kind: Kind) -> Sort
        ensures { result ≡ sort_of_kind kind }
    {
        match kind {
            Kind::Bool => Sort::Truths,
            Kind::Int2 | Kind::Int4 | Kind::Int8 => Sort::Numbers,
            Kind::Text => Sort::Texts,
            Kind::Uuid => Sort::Uuids,
            Kind::AsText(_) => Sort::Incomparable,
        }
    }
}

impl<'a> Operand<'a> {
    pub(crate) fn of_value(value: ValueRef<'a>) -> Operand<'a>
        ensures { datum_of_operand result ≡ datum_of (value_of value.entry) }
    {
        match value {
            ValueRef::Null => Operand::Null,
            ValueRef::Bool(b) => Operand::Bool(b),
            ValueRef::Int2(n) => Operand::Number(i64::from(n)),
            ValueRef::Int4(n) => Operand::Number(i64::from(n)),
            ValueRef::Int8(n) => Operand::Number(n),
            ValueRef::Text(text) => Operand::Text(text),
            ValueRef::Uuid(high, low) => Operand::Uuid(uuid_of_halves(high, low)),
        }
    }
}

pub(crate) fn number_against(how: Comparison, value: ValueRef<'_>, number: i64) -> Truth
    ensures { result ≡ truth_of_comparison how (datum_of (value_of value.entry)) (Number number) }
{
    match number_of(value) {
        Some(n) => Truth::of(how.holds(n.cmp(&number))),
        None => Truth::Unknown,
    }
}

/// The whole number that a value is.
#[inline]
pub(crate) fn number_of(value: ValueRef<'_>) -> Option<i64>
    ensures { result ≡ whole_number (datum_of (value_of value.entry)) }
{
    match value {
        ValueRef::Int2(n) => Some(i64::from(n)),
        ValueRef::Int4(n) => Some(i64::from(n)),
        ValueRef::Int8(n) => Some(n),
        _ => None,
    }
}

pub(crate) fn text_against(how: Comparison, value: ValueRef<'_>, text: &[u8]) -> Truth
    ensures { result ≡ truth_of_comparison how (datum_of (value_of value.entry)) (Bytes text.now) }
{
    match value {
        ValueRef::Text(value) => Truth::of(text_holds(how, value, text)),
        ValueRef::Uuid(high, low) => match uuid_of_text(text) {
            Some(n) => Truth::of(how.holds(uuid_of_halves(high, low).cmp(&n))),
            None => Truth::Unknown,
        },
        _ => Truth::Unknown,
    }
}

/// Whether the comparison holds of the two texts. Most ask only whether they are the same.
#[inline(always)]
#[tactic(auto, using(crate::proofs::Truths::same_texts))]
pub(crate) fn text_holds(how: Comparison, value: &[u8], text: &[u8]) -> bool
    ensures { result ≡ holds how (slice_cmp nat_cmp value.now text.now) }
{
    match how {
        Comparison::Equal => value == text,
        Comparison::NotEqual => value != text,
        _ => how.holds(value.cmp(text)),
    }
}
