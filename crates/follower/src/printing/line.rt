//! A line of an output, as far as it tells where a run goes on.

ghost use Rattle.std.specs.Prelude.{IfOk};
ghost use Rattle.follower.specs.Lines.{IsLineOf};

use crate::printing::form::Form;
use crate::printing::json_form::json_line;
use crate::printing::text_form::text_line;
use std::alloc::{AllocError, Global};

/// A line, as far as it tells where a run goes on.
#[derive(Clone, Copy)]
pub(crate) struct Line {
    pub(crate) length: u64,
    /// Whether it is the first one of a transaction, or the one of a note, or the beginning of such a line; or what is only cut off.
    pub(crate) begins: bool,
    /// Whether it is the one of a note.
    pub(crate) is_note: bool,
    /// Whether it tells a change of a table.
    pub(crate) is_change: bool,
    /// A position of the log after what it ends: of a Commit where its transaction ends, of a note one in its record.
    pub(crate) end: Option<u64>,
}

impl Line {
    /// What a line of this form tells. `AllocError` where memory to read one of JSON is refused.
    pub(crate) fn of(alloc: Global, form: Form, text: &[u8]) -> Result<Self, AllocError>
        ensures { IfOk result (λ line. IsLineOf form text.now line) }
    {
        match form {
            Form::Text => Ok(text_line(text)),
            Form::Json => json_line(alloc, text),
        }
    }
}
