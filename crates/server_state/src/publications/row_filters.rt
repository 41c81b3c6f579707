//! How a subscriber is told of row filters in an initial copy, and which ones it sends back.
//!
//! It puts a filter's text after the WHERE of its COPY as it is, joined to others by OR (PostgreSQL 15, 31.3), and reads nothing in
//! it. So a filter is told by the name of its publication, in quotes.

ghost use Rattle.std.specs.Prelude.{◌≡◌, ◌≢◌, ◌++◌, ℕ, List, IfOk, MatchOption};
ghost use Rattle.std.specs.Str.{IsUtf8};
ghost use Rattle.pqformat.specs.Quoting.{lent_text};
ghost use Rattle.server.specs.Answers.{IsShort};
ghost use Rattle.server.specs.Reading.{quoted_front};

use crate::publications::published::MOST_NAME_BYTES;
use pqformat::{Items, Text};
use replcmd::quoted_of;
use std::alloc::{AllocError, Global};

/// The quote round a publication's name. One in the name stands twice.
const NAME_QUOTE: u8 = b'"';

/// What stands between two filters.
const OR: &str = " OR ";

/// The text of the row filter that the publication of this name has for a table. For a name that no publication has it is refused as
/// for want of memory.
pub(crate) fn filter_text(alloc: Global, publication: &str) -> Result<Text, AllocError>
    ensures { IfOk result IsShort }
{
    if publication.len() > MOST_NAME_BYTES {
        return Err(AllocError);
    }
    let mut text = Vec::new(alloc);
    text.push(NAME_QUOTE)?;
    for b in publication.as_bytes() {
        if *b == NAME_QUOTE {
            text.push(NAME_QUOTE)?;
        }
        text.push(*b)?;
    }
    text.push(NAME_QUOTE)?;
    match String::from_utf8(text) {
        Ok(text) => Ok(Text::new(text)),
        Err(_) => Err(AllocError),
    }
}

/// The publications whose filters these are. None: the text is no list of such filters.
pub(crate) fn publications_in(
    alloc: Global,
    filters: &str,
) -> Result<Option<Items<Text>>, AllocError> {
    let mut names = Vec::new(alloc);
    let mut rest = filters.as_bytes();
    loop {
        let Some((name, after)) = front_name(alloc, rest)? else {
            return Ok(None);
        };
        names.push(name)?;
        if after.is_empty() {
            return Ok(Some(Items::new(names)));
        }
        let Some(next) = after_or(after) else {
            return Ok(None);
        };
        rest = next;
    }
}

/// The name in quotes at the front, and what follows it.
fn front_name(alloc: Global, text: &[u8]) -> Result<Option<(Text, &[u8])>, AllocError>
    requires { IsUtf8 text.now }
    ensures { IfOk result (λ found. lent_text found ≡ quoted_front NAME_QUOTE text.now) }
{
    let Some((first, inside)) = text.split_first() else {
        return Ok(None);
    };
    if *first != NAME_QUOTE {
        return Ok(None);
    }
    quoted_of(alloc, NAME_QUOTE, inside)
}

/// What follows an OR at the front.
fn after_or(text: &[u8]) -> Option<&[u8]>
    ensures { MatchOption result ((rest : List ℕ) → text.now ≢ OR.now ++ rest)
        (λ rest. text.now ≡ OR.now ++ rest.now) }
{
    text.strip_prefix(OR.as_bytes())
}
