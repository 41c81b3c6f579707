//! bytea: the hex format, in which it is sent, and the escape format (PostgreSQL 15, 8.4.1 and 8.4.2).

ghost use Rattle.std.specs.Prelude.{◌≡◌, ◌+◌, ◌-◌, ◌*◌, ◌++◌, ◌<◌, ◌∷◌, [], true, None, IfOk, IfSome, OnOk};
ghost use Rattle.std.specs.Char.{digit_value, is_ascii_hexdigit};
ghost use Rattle.std.specs.Option.{option_map};
ghost use Rattle.data_types.specs.declared.texts.bytea.Escape.TheVariants.{Outside};
ghost use Rattle.data_types.specs.Bytes.{are_hex_pairs, bytes_of, escape_step, hex_step, IsDigit, is_bytea_text, is_hex_blank, is_lower_hex, is_octal, IsEscape, paired_after, unescaped_after, with_byte};

use std::alloc::{AllocError, Global};

/// How far an escape of the escape format has come.
#[derive(Clone, Copy)]
pub(crate) enum Escape {
    /// None has begun.
    Outside,
    /// After its backslash.
    Begun,
    /// After one octal digit, of this value.
    One(u8),
    /// After two, of this value.
    Two(u8),
}

pub(crate) fn is_lower_hex(b: u8) -> bool
    ensures { result ≡ is_lower_hex b }
{
    (b'0' <= b && b <= b'9') || (b'a' <= b && b <= b'f')
}

fn are_hex_pairs(text: &[u8]) -> bool
    ensures { result ≡ are_hex_pairs text.now }
{
    let mut rest = text;
    while let [a, b, tail @ ..] = rest {
        if !(is_lower_hex(*a) && is_lower_hex(*b)) {
            return false;
        }
        rest = tail;
    }
    rest.is_empty()
}

/// Whether the text is that of bytes as it is sent: `\x`, and two digits a byte in lower case.
pub(crate) fn is_bytea_text(text: &[u8]) -> bool
    ensures { result ≡ is_bytea_text text.now }
{
    match text {
        [a, b, digits @ ..] => *a == b'\\' && *b == b'x' && are_hex_pairs(digits),
        _ => false,
    }
}

fn is_hex_blank(b: u8) -> bool
    ensures { result ≡ is_hex_blank b }
{
    b == b' ' || b == b'\t' || b == b'\n' || b == b'\r'
}

fn hex_value(b: u8) -> u8
    requires { is_ascii_hexdigit b ≡ true }
    ensures value { result ≡ digit_value b }
    ensures small { result < 16 }
{
    match b {
        b'0'..=b'9' => b - b'0',
        b'a'..=b'f' => b - b'a' + 10,
        _ => b - b'A' + 10,
    }
}

/// What follows one more byte: the first digit of a pair, and the byte that is whole with it; None where it is no digit.
fn hex_step(high: Option<u8>, b: u8) -> Option<(Option<u8>, Option<u8>)>
    requires { IsDigit high }
    ensures value { result ≡ hex_step high b }
    ensures small { IfSome result (λ next. IsDigit next.0) }
{
    match high {
        None if is_hex_blank(b) => Some((None, None)),
        None if b.is_ascii_hexdigit() => Some((Some(hex_value(b)), None)),
        Some(high) if b.is_ascii_hexdigit() => Some((None, Some(high * 16 + hex_value(b)))),
        _ => None,
    }
}

/// The bytes of pairs of digits, between which blanks may stand; None where another byte stands there, or half a pair.
fn paired(alloc: Global, text: &[u8]) -> Result<Option<Vec<u8>>, AllocError>
    ensures { IfOk result
        (λ found. option_map (λ v. v.items) found ≡ paired_after None [] text.now) }
{
    let mut bytes = Vec::new(alloc);
    let mut high = None;
    let mut rest = text;
    while let Some((b, tail)) = rest.split_first() {
        let Some((next, found)) = hex_step(high, *b) else {
            return Ok(None);
        };
        push_found(&mut bytes, found)?;
        high = next;
        rest = tail;
    }
    match high {
        None => Ok(Some(bytes)),
        Some(_) => Ok(None),
    }
}

fn is_octal(b: u8) -> bool
    ensures { result ≡ is_octal b }
{
    b'0' <= b && b <= b'7'
}

/// What follows one more byte: how far an escape has come, and the byte that is whole with it; None where it is no escape.
fn escape_step(escape: Escape, b: u8) -> Option<(Escape, Option<u8>)>
    requires { IsEscape escape }
    ensures value { result ≡ escape_step escape b }
    ensures small { IfSome result (λ next. IsEscape next.0) }
{
    match escape {
        Escape::Outside if b == b'\\' => Some((Escape::Begun, None)),
        Escape::Outside => Some((Escape::Outside, Some(b))),
        Escape::Begun if b == b'\\' => Some((Escape::Outside, Some(b'\\'))),
        Escape::Begun if b'0' <= b && b <= b'3' => Some((Escape::One(b - b'0'), None)),
        Escape::One(high) if is_octal(b) => Some((Escape::Two(high * 8 + (b - b'0')), None)),
        Escape::Two(high) if is_octal(b) => { Some((Escape::Outside, Some(high * 8 + (b - b'0')))) }
        _ => None,
    }
}

fn push_found(bytes: &mut Vec<u8>, found: Option<u8>) -> Result<(), AllocError>
    ensures { OnOk result (bytes.new.items ≡ with_byte bytes.old.items found) }
{
    if let Some(b) = found {
        bytes.push(b)?;
    }
    Ok(())
}

/// The bytes of a text in which a backslash stands before another, or before three octal digits; None where it stands before else.
fn unescaped(alloc: Global, text: &[u8]) -> Result<Option<Vec<u8>>, AllocError>
    ensures { IfOk result
        (λ found. option_map (λ v. v.items) found ≡ unescaped_after Outside [] text.now) }
{
    let mut bytes = Vec::new(alloc);
    let mut escape = Escape::Outside;
    let mut rest = text;
    while let Some((b, tail)) = rest.split_first() {
        let Some((next, found)) = escape_step(escape, *b) else {
            return Ok(None);
        };
        push_found(&mut bytes, found)?;
        escape = next;
        rest = tail;
    }
    match escape {
        Escape::Outside => Ok(Some(bytes)),
        _ => Ok(None),
    }
}

/// Whether the text is in the hex format.
pub(crate) fn is_hex_format(text: &[u8]) -> bool {
    matches!(text, [b'\\', b'x', ..])
}

/// The bytes that a text is taken for, in either format.
pub(crate) fn bytes_of(alloc: Global, text: &[u8]) -> Result<Option<Vec<u8>>, AllocError>
    ensures { IfOk result (λ found. option_map (λ v. v.items) found ≡ bytes_of text.now) }
{
    match text {
        [a, b, digits @ ..] if *a == b'\\' && *b == b'x' => paired(alloc, digits),
        _ => unescaped(alloc, text),
    }
}
