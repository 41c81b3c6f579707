//! Rows as COPY sends them.

ghost use Rattle.std.specs.Prelude.{◌≡◌, ◌++◌, ◌∷◌, [], ℕ, List, Option, false, length, true, IfOk, OnOk};
ghost use Rattle.std.specs.List.{flat_map, AllByRecursion};
ghost use Rattle.server.specs.RowText.{copied_byte, copied_value, further_value, row_text};

use pqformat::Text;
use std::alloc::{AllocError, Global};

/// For how many bytes of a row there is room at first.
const USUAL_BYTES: usize = 256;

/// The text of this row (PostgreSQL 15, COPY, "Text Format"), with its line feed.
pub(crate) fn row_text(alloc: Global, values: &[Option<Text>]) -> Result<Vec<u8>, AllocError>
    ensures { IfOk result (λ text. text.items ≡ row_text values.now) }
{
    let mut text = Vec::with_capacity(alloc, USUAL_BYTES)?;
    if let Some((first, others)) = values.split_first() {
        push_value(&mut text, first)?;
        push_others(&mut text, others)?;
    }
    text.push(b'\n')?;
    Ok(text)
}

/// The values after the first.
fn push_others(text: &mut Vec<u8>, values: &[Option<Text>]) -> Result<(), AllocError>
    ensures { OnOk result (text.new.items ≡ text.old.items ++ flat_map further_value values.now) }
{
    for value in values {
        text.push(b'\t')?;
        push_value(text, value)?;
    }
    Ok(())
}

fn push_value(text: &mut Vec<u8>, value: &Option<Text>) -> Result<(), AllocError>
    ensures { OnOk result (text.new.items ≡ text.old.items ++ copied_value value.now) }
{
    match value {
        None => text.extend_from_slice(b"\\N"),
        Some(value) => push_escaped(text, value.as_str().as_bytes()),
    }
}

fn push_escaped(text: &mut Vec<u8>, value: &[u8]) -> Result<(), AllocError>
    ensures { OnOk result (text.new.items ≡ text.old.items ++ flat_map copied_byte value.now) }
{
    // Most values have nothing to escape, and are copied at once.
    if is_plain(value) {
        return text.extend_from_slice(value);
    }
    for byte in value {
        push_byte(text, *byte)?;
    }
    Ok(())
}

/// Whether no byte is escaped.
fn is_plain(value: &[u8]) -> bool
    ensures { result ≡ true → flat_map copied_byte value.now ≡ value.now }
{
    for byte in value {
        if is_escaped(*byte) {
            return false;
        }
    }
    true
}

fn is_escaped(byte: u8) -> bool
    ensures { result ≡ false → copied_byte byte ≡ byte ∷ [] }
{
    match byte {
        b'\\' | 8 | b'\t' | b'\n' | 11 | 12 | b'\r' => true,
        _ => false,
    }
}

fn push_byte(text: &mut Vec<u8>, byte: u8) -> Result<(), AllocError>
    ensures { OnOk result (text.new.items ≡ text.old.items ++ copied_byte byte) }
{
    match byte {
        b'\\' => text.extend_from_slice(b"\\\\"),
        8 => text.extend_from_slice(b"\\b"),
        b'\t' => text.extend_from_slice(b"\\t"),
        b'\n' => text.extend_from_slice(b"\\n"),
        11 => text.extend_from_slice(b"\\v"),
        12 => text.extend_from_slice(b"\\f"),
        b'\r' => text.extend_from_slice(b"\\r"),
        other => {
            text.push(other)?;
            Ok(())
        }
    }
}

/// The law of rows: rows of so many columns, one after the other, are told by their texts. So a null is never taken for a text.
pub fn no_text_is_of_two_copies()
    ensures { (columns : ℕ) (a b : List (List (Option (List ℕ)))) →
        AllByRecursion (λ row. length row ≡ columns) a →
        AllByRecursion (λ row. length row ≡ columns) b →
        flat_map row_text a ≡ flat_map row_text b → a ≡ b }
{}
