//! The table of the data types: what a Relation tells of each.

ghost use Rattle.std.specs.Prelude.{◌≡◌};
ghost use Rattle.data_types.specs.DataTypes.{has_one_text, type_modifier, type_oid, type_size};

use crate::limits::{CharacterLimit, DecimalPlaces};

/// The type of a column.
#[derive(Clone, Copy, Debug, PartialEq, Eq)]
pub enum DataType {
    Bool,
    Int2,
    Int4,
    Int8,
    Float4,
    Float8,
    Numeric(Option<DecimalPlaces>),
    Text,
    Varchar(Option<CharacterLimit>),
    Char(CharacterLimit),
    Bytea,
    Date,
    Time,
    Timestamp,
    Timestamptz,
    Interval,
    Uuid,
    Json,
    Jsonb,
    TextArray,
    Int4Array,
}

/// The size of a type whose values are of many sizes (PostgreSQL 15, 53.64: `typlen`).
pub const VARIABLE_SIZE: i16 = -1;

/// The modifier of a type that has nothing in parentheses.
pub const NO_MODIFIER: i32 = -1;

/// What PostgreSQL adds to what is in parentheses: the bytes of a length.
pub const MODIFIER_OFFSET: i32 = 4;

impl DataType {
    /// The OID of its type (PostgreSQL 15, pg_type).
    pub fn oid(self) -> u32
        ensures { result ≡ type_oid self }
    {
        match self {
            DataType::Bool => 16,
            DataType::Bytea => 17,
            DataType::Int8 => 20,
            DataType::Int2 => 21,
            DataType::Int4 => 23,
            DataType::Text => 25,
            DataType::Json => 114,
            DataType::Float4 => 700,
            DataType::Float8 => 701,
            DataType::Int4Array => 1007,
            DataType::TextArray => 1009,
            DataType::Char(_) => 1042,
            DataType::Varchar(_) => 1043,
            DataType::Date => 1082,
            DataType::Time => 1083,
            DataType::Timestamp => 1114,
            DataType::Timestamptz => 1184,
            DataType::Interval => 1186,
            DataType::Numeric(_) => 1700,
            DataType::Uuid => 2950,
            DataType::Jsonb => 3802,
        }
    }

    /// How many bytes PostgreSQL keeps of each value; `VARIABLE_SIZE` where that differs from value to value.
    pub fn size(self) -> i16
        ensures { result ≡ type_size self }
    {
        match self {
            DataType::Bool => 1,
            DataType::Int2 => 2,
            DataType::Int4 | DataType::Float4 | DataType::Date => 4,
            DataType::Int8 | DataType::Float8 => 8,
            DataType::Time | DataType::Timestamp | DataType::Timestamptz => 8,
            DataType::Interval | DataType::Uuid => 16,
            DataType::Numeric(_) | DataType::Text | DataType::Varchar(_) | DataType::Char(_) =>
                VARIABLE_SIZE,
            DataType::Bytea | DataType::Json | DataType::Jsonb => VARIABLE_SIZE,
            DataType::TextArray | DataType::Int4Array => VARIABLE_SIZE,
        }
    }

    /// The modifier of its type, as a Relation tells it; `NO_MODIFIER` where nothing is in parentheses.
    pub fn modifier(self) -> i32
        ensures { result ≡ type_modifier self }
    {
        match self {
            DataType::Varchar(Some(limit)) | DataType::Char(limit) => {
                limit.count().cast_signed() + MODIFIER_OFFSET
            }
            DataType::Numeric(Some(places)) => {
                i32::from(places.precision()) * (1 << 16)
                    + i32::from(places.scale())
                    + MODIFIER_OFFSET
            }
            _ => NO_MODIFIER,
        }
    }

    /// Whether each value has one text, so that values are equal only if their texts are.
    pub fn has_one_text(self) -> bool
        ensures { result ≡ has_one_text self }
    {
        match self {
            DataType::Numeric(places) => places.is_some(),
            DataType::Float4 | DataType::Float8 | DataType::Interval => false,
            DataType::Json | DataType::Jsonb => false,
            _ => true,
        }
    }
}
