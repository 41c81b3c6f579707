//! Lines of JSON, as an output holds them.

ghost use Rattle.std.specs.Prelude.{◌≡◌, [], ◌∷◌, ◌++◌, ℕ, List, None, IfOk, length};
ghost use Rattle.std.specs.Str.{IsUtf8};
ghost use Rattle.message_lines.specs.Ending.{end_of};
ghost use Rattle.message_lines.specs.Fronts.{Tells};

use crate::printing::line::Line;
use crate::printing::whole::whole;
use message_lines::{begins_one, end_of, is_change_line, is_note_line};
use std::alloc::{AllocError, Global};

/// What the line tells. `AllocError` where memory to read it is refused.
pub(crate) fn json_line(alloc: Global, text: &[u8]) -> Result<Line, AllocError>
    ensures length { IfOk result (λ told. told.length ≡ length text.now) }
    ensures begins { IfOk result (λ told. Tells text.now told.begins told.is_note told.is_change) }
    // Of a whole line, what a reader of JSON finds in it.
    ensures whole { (line : List ℕ) → IsUtf8 line → text.now ≡ line ++ 10 ∷ [] →
        IfOk result (λ told. told.end ≡ end_of line) }
    // What isn't whole ends nothing.
    ensures half { ((line : List ℕ) → text.now ≡ line ++ 10 ∷ [] → ⊥) →
        IfOk result (λ told. told.end ≡ None) }
{
    let end = end_told(alloc, text)?;
    Ok(Line {
        length: text.len() as u64,
        begins: begins_one(text),
        is_note: is_note_line(text),
        is_change: is_change_line(text),
        end,
    })
}

/// A position of the log after what the line ends, if it is whole and ends something.
fn end_told(alloc: Global, text: &[u8]) -> Result<Option<u64>, AllocError>
    ensures whole { (line : List ℕ) → IsUtf8 line → text.now ≡ line ++ 10 ∷ [] →
        IfOk result (λ end. end ≡ end_of line) }
    ensures half { ((line : List ℕ) → text.now ≡ line ++ 10 ∷ [] → ⊥) →
        IfOk result (λ end. end ≡ None) }
{
    match whole(text) {
        Some(line) => end_of(alloc, line),
        None => Ok(None),
    }
}
