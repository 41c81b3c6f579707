//! String literals (PostgreSQL 15, 4.1.2.1 and 4.1.2.2).

ghost use Rattle.std.specs.Prelude.{◌≡◌, IfOk};
ghost use Rattle.std.specs.Str.{IsUtf8};
ghost use Rattle.pqformat.specs.Quoting.{lent_text};
ghost use Rattle.server.specs.declared.asked.quoted.TheConstants.{LITERAL_QUOTE};
ghost use Rattle.server.specs.Reading.{literal_front, quoted_front, undoubled, undoubled_front};

use crate::asked::quoted::{BACKSLASH, LITERAL_QUOTE, quoted_of};
use pqformat::Text;
use std::alloc::{AllocError, Global};

/// What the literal at the front says, and what follows it; None where none stands there.
pub(crate) fn literal_of(alloc: Global, text: &[u8]) -> Result<Option<(Text, &[u8])>, AllocError>
    requires { IsUtf8 text.now }
    ensures { IfOk result (λ found. lent_text found ≡ literal_front text.now) }
{
    match text.split_first() {
        Some((b'E', quoted)) => escaped_of(alloc, quoted),
        _ => quoted_of(alloc, LITERAL_QUOTE, text),
    }
}

/// The same after the E.
fn escaped_of(alloc: Global, text: &[u8]) -> Result<Option<(Text, &[u8])>, AllocError>
    requires { IsUtf8 text.now }
    ensures { IfOk result
        (λ found. lent_text found ≡ undoubled_front (quoted_front LITERAL_QUOTE text.now)) }
{
    let Some((escaped, rest)) = quoted_of(alloc, LITERAL_QUOTE, text)? else {
        return Ok(None);
    };
    match undoubled(alloc, escaped.as_str())? {
        Some(meant) => Ok(Some((meant, rest))),
        None => Ok(None),
    }
}

/// What is meant by a text in which each backslash stands twice; None where one doesn't.
fn undoubled(alloc: Global, text: &str) -> Result<Option<Text>, AllocError>
    ensures { IfOk result (λ found. found ≡ undoubled text.now) }
{
    let mut closed = String::from_str(alloc, text)?;
    closed.push('\\')?;
    match replcmd::quoted_of(alloc, BACKSLASH, closed.as_str().as_bytes())? {
        Some((meant, rest)) if rest.is_empty() => Ok(Some(meant)),
        _ => Ok(None),
    }
}
