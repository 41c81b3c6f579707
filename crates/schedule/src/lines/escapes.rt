//! Texts with escapes, as PostgreSQL writes them after `E'`.

use crate::lines::bad_line::{BadLine, LineRefusal};
use std::alloc::Global;

/// The content of such a text, and what follows the quote that closes it. A doubled quote stands for one here too.
pub(crate) fn escaped_text(alloc: Global, text: &str) -> Result<(String, &str), LineRefusal> {
    let mut bytes = Vec::new(alloc);
    let mut rest = text;
    // Each turn takes a quote or a backslash at least, so these turns read the whole text.
    for _ in 0..text.len() {
        let (piece, mark) = piece_of(rest)?;
        bytes.extend_from_slice(piece.as_bytes())?;
        if let Some(behind) = mark.strip_prefix('\\') {
            rest = escape(&mut bytes, behind)?;
        } else if let Some(behind) = mark.strip_prefix("''") {
            bytes.push(b'\'')?;
            rest = behind;
        } else {
            return close(bytes, mark);
        }
    }
    Err(LineRefusal::Bad(BadLine::OpenText))
}

/// What stands before the next quote or backslash, and what stands from there on.
fn piece_of(text: &str) -> Result<(&str, &str), LineRefusal> {
    let end = text
        .find(|c: char| c == '\'' || c == '\\')
        .ok_or(LineRefusal::Bad(BadLine::OpenText))?;
    text.split_at_checked(end)
        .ok_or(LineRefusal::Bad(BadLine::OpenText))
}

/// The content of these bytes, and what stands after the closing quote.
fn close(bytes: Vec<u8>, mark: &str) -> Result<(String, &str), LineRefusal> {
    let behind = mark
        .strip_prefix('\'')
        .ok_or(LineRefusal::Bad(BadLine::OpenText))?;
    match String::from_utf8(bytes) {
        Ok(content) => Ok((content, behind)),
        Err(_) => Err(LineRefusal::Bad(BadLine::NotUtf8)),
    }
}

/// Adds what an escape stands for, and answers what stands after it.
fn escape<'a>(bytes: &mut Vec<u8>, text: &'a str) -> Result<&'a str, LineRefusal> {
    let mut chars = text.chars();
    let letter = chars.next().ok_or(LineRefusal::Bad(BadLine::OpenText))?;
    let behind = chars.as_str();
    match letter {
        'x' => byte(bytes, behind),
        'u' => character(bytes, behind, 4),
        'U' => character(bytes, behind, 8),
        _ => {
            bytes.push(single(letter)?)?;
            Ok(behind)
        }
    }
}

/// What an escape of one letter stands for.
fn single(letter: char) -> Result<u8, LineRefusal> {
    match letter {
        'b' => Ok(8),
        't' => Ok(b'\t'),
        'n' => Ok(b'\n'),
        'f' => Ok(12),
        'r' => Ok(b'\r'),
        '\'' => Ok(b'\''),
        '\\' => Ok(b'\\'),
        _ => Err(LineRefusal::Bad(BadLine::Escape)),
    }
}

/// A byte of one or two hexadecimal digits.
fn byte<'a>(bytes: &mut Vec<u8>, text: &'a str) -> Result<&'a str, LineRefusal> {
    let (number, count, behind) = hexadecimal(text, 2)?;
    if count == 0 {
        return Err(LineRefusal::Bad(BadLine::Escape));
    }
    bytes.push(u8::try_from(number).map_err(|_| LineRefusal::Bad(BadLine::Escape))?)?;
    Ok(behind)
}

/// A character by so many hexadecimal digits.
fn character<'a>(
    bytes: &mut Vec<u8>,
    text: &'a str,
    digits: usize,
) -> Result<&'a str, LineRefusal> {
    let (number, count, behind) = hexadecimal(text, digits)?;
    let character = char::from_u32(number).ok_or(LineRefusal::Bad(BadLine::Escape))?;
    if count < digits {
        return Err(LineRefusal::Bad(BadLine::Escape));
    }
    let mut room = [0; 4];
    bytes.extend_from_slice(character.encode_utf8(&mut room).as_bytes())?;
    Ok(behind)
}

/// The number of up to so many hexadecimal digits, how many there are, and what stands after them.
fn hexadecimal(text: &str, most: usize) -> Result<(u32, usize, &str), LineRefusal> {
    let digits = text.bytes().take_while(|b| b.is_ascii_hexdigit());
    let count = digits.take(most).count();
    let (digits, behind) = text
        .split_at_checked(count)
        .ok_or(LineRefusal::Bad(BadLine::Escape))?;
    let number = u32::from_str_radix(digits, 16).unwrap_or(0);
    Ok((number, count, behind))
}
