//! Fields of messages from the front of some bytes.

use crate::wording::answer::{add_value, tell_value, tell_written};
use bytes::BytesMut;
use pqformat::{Cursor, put_byte, put_bytes, put_int16, put_int32, put_int64, put_string, utf8_of};
use std::alloc::{AllocError, Global};

/// Adds the field, or None where it isn't there whole, and what is left after it.
pub fn answer_field(
    alloc: Global,
    call: &str,
    bytes: &[u8],
    answer: &mut String,
) -> Result<(), AllocError> {
    let mut cursor = Cursor::new(bytes);
    let mut written = BytesMut::new(alloc);
    add_field(call, &mut cursor, &mut written, answer)?;
    tell_rest(cursor.rest(), written.as_slice(), bytes, answer)
}

fn tell_rest(
    rest: &[u8],
    written: &[u8],
    bytes: &[u8],
    answer: &mut String,
) -> Result<(), AllocError> {
    add_value(answer, &rest)?;
    tell_written(answer, written, bytes.strip_suffix(rest).unwrap_or(&[]))
}

fn add_field(
    call: &str,
    cursor: &mut Cursor<'_>,
    written: &mut BytesMut,
    answer: &mut String,
) -> Result<(), AllocError> {
    match call {
        "u8" => add_u8(cursor, written, answer),
        "u16" => add_u16(cursor, written, answer),
        "u32" => add_u32(cursor, written, answer),
        "u64" => add_u64(cursor, written, answer),
        "take2" => add_two(cursor, written, answer),
        _ => add_text(cursor, written, answer),
    }
}

fn add_u8(
    cursor: &mut Cursor<'_>,
    written: &mut BytesMut,
    answer: &mut String,
) -> Result<(), AllocError> {
    let number = cursor.u8();
    tell_value(answer, &number)?;
    match number {
        Some(number) => put_byte(written, number),
        None => Ok(()),
    }
}

fn add_u16(
    cursor: &mut Cursor<'_>,
    written: &mut BytesMut,
    answer: &mut String,
) -> Result<(), AllocError> {
    let number = cursor.u16();
    tell_value(answer, &number)?;
    match number {
        Some(number) => put_int16(written, number),
        None => Ok(()),
    }
}

fn add_u32(
    cursor: &mut Cursor<'_>,
    written: &mut BytesMut,
    answer: &mut String,
) -> Result<(), AllocError> {
    let number = cursor.u32();
    tell_value(answer, &number)?;
    match number {
        Some(number) => put_int32(written, number),
        None => Ok(()),
    }
}

fn add_u64(
    cursor: &mut Cursor<'_>,
    written: &mut BytesMut,
    answer: &mut String,
) -> Result<(), AllocError> {
    let number = cursor.u64();
    tell_value(answer, &number)?;
    match number {
        Some(number) => put_int64(written, number),
        None => Ok(()),
    }
}

fn add_two(
    cursor: &mut Cursor<'_>,
    written: &mut BytesMut,
    answer: &mut String,
) -> Result<(), AllocError> {
    let two = cursor.take(2);
    tell_value(answer, &two)?;
    put_bytes(written, two.unwrap_or(&[]))
}

/// Adds what stands before a zero byte: as a text where it is one.
fn add_text(
    cursor: &mut Cursor<'_>,
    written: &mut BytesMut,
    answer: &mut String,
) -> Result<(), AllocError> {
    match cursor.cstr() {
        Some(before) => add_before(before, written, answer),
        None => answer.push_str("= None"),
    }
}

fn add_before(
    before: &[u8],
    written: &mut BytesMut,
    answer: &mut String,
) -> Result<(), AllocError> {
    match utf8_of(before) {
        Some(text) => add_string(text, written, answer),
        None => add_no_string(before, written, answer),
    }
}

fn add_string(text: &str, written: &mut BytesMut, answer: &mut String) -> Result<(), AllocError> {
    tell_value(answer, &Some(text))?;
    put_string(written, text)
}

fn add_no_string(
    before: &[u8],
    written: &mut BytesMut,
    answer: &mut String,
) -> Result<(), AllocError> {
    tell_value(answer, &Some(before))?;
    put_bytes(written, before)?;
    put_byte(written, 0)
}
