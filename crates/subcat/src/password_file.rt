//! A file of passwords as `.pgpass` (PostgreSQL 15, 34.16): each line is `hostname:port:database:username:password`.

use std::alloc::{AllocError, Global};

/// Who connects where, as a line names it. The database of a user has the same name.
#[derive(Clone, Copy)]
pub struct PassfileHost<'a> {
    host: &'a [u8],
    port: &'a [u8],
    user: &'a [u8],
}

impl<'a> PassfileHost<'a> {
    /// That of an address and a port, for this user.
    pub fn of(address: &'a str, user: &'a str) -> Self {
        let (host, port) = address.rsplit_once(':').unwrap_or((address, ""));
        PassfileHost {
            host: without_brackets(host).as_bytes(),
            port: port.as_bytes(),
            user: user.as_bytes(),
        }
    }
}

fn without_brackets(host: &str) -> &str {
    match host.strip_prefix('[') {
        Some(inner) => inner.strip_suffix(']').unwrap_or(host),
        None => host,
    }
}

/// The password of the first line that fits. `AllocError` where memory for it is refused.
pub fn password_at(
    alloc: Global,
    text: &[u8],
    place: &PassfileHost<'_>,
) -> Result<Option<Vec<u8>>, AllocError> {
    for line in text.split(|b| *b == b'\n') {
        if let Some(escaped) = fitting(without_return(line), place) {
            return Ok(Some(unescaped(alloc, escaped)?));
        }
    }
    Ok(None)
}

fn without_return(line: &[u8]) -> &[u8] {
    let mut rest = line;
    for _ in 0..line.len() {
        match rest.split_last() {
            Some((b'\r', before)) => rest = before,
            _ => return rest,
        }
    }
    rest
}

/// The password of a line that fits, as it is written there. One that begins with `#` is none.
fn fitting<'a>(line: &'a [u8], place: &PassfileHost<'_>) -> Option<&'a [u8]> {
    if line.first() == Some(&b'#') {
        return None;
    }
    let line = behind(line, place.host)?;
    let line = behind(line, place.port)?;
    let line = behind(line, place.user)?;
    behind(line, place.user)
}

/// What follows a field and its colon, where the field is this value, or `*`.
fn behind<'a>(line: &'a [u8], value: &[u8]) -> Option<&'a [u8]> {
    if let Some(rest) = line.strip_prefix(b"*:".as_slice()) {
        return Some(rest);
    }
    let mut rest = line;
    for due in value {
        let (found, after) = letter(rest)?;
        if found != *due {
            return None;
        }
        rest = after;
    }
    rest.strip_prefix(b":".as_slice())
}

/// The first byte, or the one that a backslash stands before, and what follows.
fn letter(text: &[u8]) -> Option<(u8, &[u8])> {
    let (first, rest) = text.split_first()?;
    if *first != b'\\' {
        return Some((*first, rest));
    }
    let (second, rest) = rest.split_first()?;
    Some((*second, rest))
}

/// A password up to its colon, or to the end, without the backslashes before its bytes. A last one stands for itself.
fn unescaped(alloc: Global, text: &[u8]) -> Result<Vec<u8>, AllocError> {
    let mut password = Vec::new(alloc);
    let mut rest = text;
    for _ in 0..text.len() {
        let Some((found, after)) = next_of_password(rest) else {
            return Ok(password);
        };
        password.push(found)?;
        rest = after;
    }
    Ok(password)
}

/// The next byte of a password, and what follows; None at its end.
fn next_of_password(text: &[u8]) -> Option<(u8, &[u8])> {
    let (first, after) = text.split_first()?;
    if *first == b':' {
        return None;
    }
    Some(letter(text).unwrap_or((*first, after)))
}
