//! Which lines end a transaction, or are a note.

ghost use Rattle.std.specs.Prelude.{◌≡◌, IfOk, option_map};
ghost use Rattle.json.specs.Value.{value_view};
ghost use Rattle.message_lines.specs.Ending.{behind, end_in, end_of, end_of_note, is_note, text_in};
ghost use Rattle.replcmd.specs.Reading.{position_of};

use json::{Error, Scratch, Value};
use replcmd::parse_position;
use std::alloc::{AllocError, Global};

/// Where the log goes on after the transaction or the note that this line ends, without its line end; None of any other.
/// `AllocError` where memory is refused.
pub fn end_of(alloc: Global, line: &str) -> Result<Option<u64>, AllocError>
    ensures { IfOk result (λ end. end ≡ end_of line.now) }
{
    let mut scratch = Scratch::new(alloc);
    match Value::parse(alloc, line, &mut scratch) {
        Ok(value) => Ok(end_in(&value)),
        Err(Error::Invalid) => Ok(None),
        // `parse` answers neither of the last two.
        Err(Error::OutOfMemory | Error::TooLong | Error::DuplicateKey) => Err(AllocError),
    }
}

#[tactic(auto, unfolding(crate::specs::Ending::end_in))]
fn end_in(value: &Value<'_>) -> Option<u64>
    ensures { result ≡ end_in (value_view value.now) }
{
    match text_in(value, "action")? {
        "C" => position_of(text_in(value, "nextlsn")?),
        "M" => end_of_note(value),
        _ => None,
    }
}

/// A position after the start of a note, which its line doesn't tell the end of.
fn end_of_note(value: &Value<'_>) -> Option<u64>
    ensures { result ≡ end_of_note (value_view value.now) }
{
    if !is_note(value) {
        return None;
    }
    let start = position_of(text_in(value, "lsn")?)?;
    behind(start)
}

fn is_note(value: &Value<'_>) -> bool
    ensures { result ≡ is_note (value_view value.now) }
{
    match value.get("transactional") {
        Some(told) => match told.as_bool() {
            Some(is_transactional) => !is_transactional,
            None => false,
        },
        None => false,
    }
}

/// The text of the member of this name.
fn text_in<'a>(value: &Value<'a>, name: &str) -> Option<&'a str>
    ensures { option_map (λ text. text.now) result ≡ text_in name.now (value_view value.now) }
{
    value.get(name)?.as_str()
}

#[tactic(auto, using(replcmd::proofs::Places::position_told))]
fn position_of(text: &str) -> Option<u64>
    ensures { result ≡ position_of text.now }
{
    parse_position(text).ok()
}

/// A position within the record that starts here; None at the last one that there is.
pub fn behind(position: u64) -> Option<u64>
    ensures { result ≡ behind position }
{
    if position == u64::MAX {
        None
    } else {
        Some(position + 1)
    }
}
