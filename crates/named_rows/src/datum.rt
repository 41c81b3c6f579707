//! What is told of a column, by its name.

ghost use Rattle.std.specs.Prelude.{◌≡◌, IfOk};
ghost use Rattle.tables.specs.declared.kinds.Value.TheVariants as values;
ghost use Rattle.named_rows.specs.Fields.{value_told};

use pqformat::Text;
use std::alloc::{AllocError, Global};
use tables::Value;

/// A value of a column, with its text where it lies. Columns of types that are no variant, as `date`, take texts.
#[derive(Clone, Copy)]
pub enum Datum<'a> {
    Null,
    Bool(bool),
    Int2(i16),
    Int4(i32),
    Int8(i64),
    Text(&'a str),
    /// The number of its bytes, the highest first.
    Uuid(u128),
}

/// What is told of a column, by its name.
#[derive(Clone, Copy)]
pub struct NamedDatum<'a> {
    pub column: &'a str,
    pub datum: Datum<'a>,
}

/// What is told of a column: a number or a text of Rust for one of that type, as in `field("pieces", 5)` for an int4.
pub fn field<'a, D: Into<Datum<'a>>>(column: &'a str, datum: D) -> NamedDatum<'a>
    ensures column { result.column.now ≡ column.now }
    ensures datum { D.converts datum result.datum }
{
    NamedDatum {
        column,
        datum: datum.into(),
    }
}

impl<'a> Datum<'a> {
    /// The same with a text of its own; `AllocError` where memory for it is refused.
    pub fn to_value(self, alloc: Global) -> Result<Value, AllocError>
        ensures { IfOk result (λ value. value ≡ value_told self.entry) }
    {
        match self {
            Datum::Null => Ok(Value::Null),
            Datum::Bool(b) => Ok(Value::Bool(b)),
            Datum::Int2(n) => Ok(Value::Int2(n)),
            Datum::Int4(n) => Ok(Value::Int4(n)),
            Datum::Int8(n) => Ok(Value::Int8(n)),
            Datum::Text(text) => Ok(Value::Text(Text::copy_of(alloc, text)?)),
            Datum::Uuid(n) => Ok(Value::Uuid(n)),
        }
    }

    /// What a row holds, where it lies.
    pub fn of(value: &'a Value) -> Datum<'a>
        ensures { value_told result ≡ value.now }
    {
        match value {
            Value::Null => Datum::Null,
            Value::Bool(b) => Datum::Bool(*b),
            Value::Int2(n) => Datum::Int2(*n),
            Value::Int4(n) => Datum::Int4(*n),
            Value::Int8(n) => Datum::Int8(*n),
            Value::Text(text) => Datum::Text(text.as_str()),
            Value::Uuid(n) => Datum::Uuid(*n),
        }
    }
}

impl<'a> From<bool> for Datum<'a> {
    ghost from_gives = { λ b datum. value_told datum ≡ values.Bool b };

    fn from(b: bool) -> Datum<'a> {
        Datum::Bool(b)
    }
}

impl<'a> From<i16> for Datum<'a> {
    ghost from_gives = { λ n datum. value_told datum ≡ values.Int2 n };

    fn from(n: i16) -> Datum<'a> {
        Datum::Int2(n)
    }
}

impl<'a> From<i32> for Datum<'a> {
    ghost from_gives = { λ n datum. value_told datum ≡ values.Int4 n };

    fn from(n: i32) -> Datum<'a> {
        Datum::Int4(n)
    }
}

impl<'a> From<i64> for Datum<'a> {
    ghost from_gives = { λ n datum. value_told datum ≡ values.Int8 n };

    fn from(n: i64) -> Datum<'a> {
        Datum::Int8(n)
    }
}

impl<'a> From<&'a str> for Datum<'a> {
    ghost from_gives = { λ text datum. value_told datum ≡ values.Text text.now };

    fn from(text: &'a str) -> Datum<'a> {
        Datum::Text(text)
    }
}
