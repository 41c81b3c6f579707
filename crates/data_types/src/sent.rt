//! Which texts are sent of the values of each type.

ghost use Rattle.std.specs.Prelude.{◌≡◌};
ghost use Rattle.data_types.specs.Sent.{is_sent_text};

use crate::data_type::DataType;
use crate::texts::bytea::is_bytea_text;
use crate::texts::calendar::is_date_text;
use crate::texts::characters::{has_no_zero, is_char_text, is_varchar_text};
use crate::texts::clock::is_time_text;
use crate::texts::decimal::is_numeric_text;
use crate::texts::integer::{Width, is_integer_text};
use crate::texts::moment::is_moment_text;
use crate::texts::truth::is_truth_text;
use crate::texts::uuid_text::is_uuid_text;

impl DataType {
    /// Whether PostgreSQL sends this text, in UTF-8, of a value of the type; false of types of which that isn't decided here.
    #[tactic(auto, unfolding(crate::specs::Sent::is_sent_text))]
    pub fn is_sent(self, text: &[u8]) -> bool
        ensures { result ≡ is_sent_text self text.now }
    {
        match self {
            DataType::Bool => is_truth_text(text),
            DataType::Int2 => is_integer_text(Width::Int2, text),
            DataType::Int4 => is_integer_text(Width::Int4, text),
            DataType::Int8 => is_integer_text(Width::Int8, text),
            DataType::Numeric(places) => is_numeric_text(places, text),
            DataType::Text => has_no_zero(text),
            DataType::Varchar(limit) => is_varchar_text(limit, text),
            DataType::Char(limit) => is_char_text(limit, text),
            DataType::Bytea => is_bytea_text(text),
            DataType::Date => is_date_text(text),
            DataType::Time => is_time_text(text),
            DataType::Timestamp => is_moment_text(false, text),
            DataType::Timestamptz => is_moment_text(true, text),
            DataType::Uuid => is_uuid_text(text),
            DataType::Float4
            | DataType::Float8
            | DataType::Interval
            | DataType::Json
            | DataType::Jsonb => false,
            DataType::TextArray | DataType::Int4Array => false,
        }
    }
}
