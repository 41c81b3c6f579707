//! A column of a row against a literal, as most comparisons have it.

ghost use Rattle.std.specs.Prelude.{◌≡◌, slice_get};
ghost use Rattle.conditions.specs.Shapes.{literal_datum};
ghost use Rattle.tables.specs.Kinds.{value_of};
ghost use Rattle.conditions.specs.Kinds.{datum_of};
ghost use Rattle.conditions.specs.Truth.{datum_at, truth_of_comparison};

use crate::literal::Literal;
use crate::truth::Truth;
use crate::values::comparison::Comparison;
use crate::values::kinds::{number_against, text_against};
use crate::values::operand::Operand;
use tables::{RowRef, ValueRef};

/// How the column at this place compares with the literal.
pub(crate) fn column_against(
    how: Comparison,
    row: &RowRef<'_>,
    place: usize,
    literal: &Literal,
) -> Truth
    ensures { result
        ≡ truth_of_comparison how (datum_at (slice_get row.now place)) (literal_datum literal.now) }
{
    match row.get(place) {
        Some(value) => value_against(how, value, literal),
        None => Truth::Unknown,
    }
}

fn value_against(how: Comparison, value: ValueRef<'_>, literal: &Literal) -> Truth
    ensures { result
        ≡ truth_of_comparison how (datum_of (value_of value.entry)) (literal_datum literal.now) }
{
    match literal {
        Literal::Number(number) => number_against(how, value, *number),
        Literal::Text(text) => text_against(how, value, text.as_slice()),
        Literal::Null | Literal::Bool(_) => {
            Operand::of_value(value).compared(how, Operand::of_literal(literal))
        }
    }
}
