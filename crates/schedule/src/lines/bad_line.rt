//! Why a text is no line.

use std::alloc::{AllocError, AllocFailed};
use thiserror::Error;

/// Which texts are lines: those of schedules, or those of scripts, which may have more.
#[derive(Clone, Copy, Debug, PartialEq, Eq)]
pub enum LineDialect {
    Schedule,
    /// A text may be written with escapes too, as in `E'a\n'`.
    Script,
}

/// Why a text is no line.
#[derive(Clone, Copy, Debug, PartialEq, Eq, Error)]
pub enum BadLine {
    #[error("a field is empty: two blanks in a row, or one at an end")]
    EmptyField,
    #[error("a field is missing")]
    MissingField,
    #[error("there is a field too many")]
    OneFieldMore,
    #[error("no line begins with this word")]
    Word,
    #[error("no such line is read here")]
    NotHere,
    #[error("a name has 1 to 32 ASCII letters and digits")]
    Name,
    #[error("a slot's name has 1 to 63 lower-case letters, digits and underscores")]
    SlotName,
    #[error("a number was due")]
    Number,
    #[error("a position was due, as in 0/1000050")]
    Position,
    #[error("a row or a key stands in parentheses, its values between commas")]
    Row,
    #[error("a value is null, true, false, an integer or a text in quotes")]
    Value,
    #[error("a text in quotes was due")]
    Text,
    #[error("the closing quote of a text is missing")]
    OpenText,
    #[error("a text has an escape that there is not")]
    Escape,
    #[error("it is not UTF-8")]
    NotUtf8,
    #[error("a publication's name is empty")]
    Publication,
}

/// Why no line was read.
#[derive(Clone, Copy, Debug, PartialEq, Eq)]
pub enum LineRefusal {
    Bad(BadLine),
    Memory,
}

impl From<BadLine> for LineRefusal {
    fn from(bad: BadLine) -> LineRefusal {
        LineRefusal::Bad(bad)
    }
}

impl From<AllocError> for LineRefusal {
    fn from(_e: AllocError) -> LineRefusal {
        LineRefusal::Memory
    }
}

impl<T: Drop> From<AllocFailed<T>> for LineRefusal {
    fn from(_e: AllocFailed<T>) -> LineRefusal {
        LineRefusal::Memory
    }
}
