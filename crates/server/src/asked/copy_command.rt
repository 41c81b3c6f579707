//! COPY of a table to the client, as a subscriber asks for it.

ghost use Rattle.std.specs.Prelude.{◌≡◌, ◌++◌, Some, IfOk, MatchOption, false, true};
ghost use Rattle.std.specs.List.{list_all};
ghost use Rattle.std.specs.Str.{IsUtf8};
ghost use Rattle.pqformat.specs.Quoting.{begins, lent_text};
ghost use Rattle.server.specs.Copies.{SpellsCopy, begins_name, goes_on_in_name, name_front, name_run};
ghost use Rattle.server.specs.CopyReading.{EndsColumns, EndsName, FilteredAt, Reads, ReadsForm, SomeColumnsAt, TableAt, WholeAt};

use crate::asked::list::{before, behind};
use crate::asked::quoted::{NAME_QUOTE, quoted_of};
use crate::asked::table_name::TableName;
use pqformat::{Items, Text};
use std::alloc::{AllocError, Global};

/// How many columns a table has at most (PostgreSQL 15, appendix K).
pub(crate) const MOST_COLUMNS: usize = 1600;

/// A COPY: of which table, of which of its columns, and which of its rows; None is all.
#[derive(Debug, Drop)]
pub struct CopyCommand {
    pub table: TableName,
    pub columns: Items<Text>,
    pub filter: Option<Text>,
}

/// The COPY that the text asks for, all of it; None where it asks for none.
pub(crate) fn copy_of(alloc: Global, text: &str) -> Result<Option<CopyCommand>, AllocError>
    ensures { IfOk result
        (λ found. MatchOption found ((copy : CopyCommand) → SpellsCopy text.now copy → ⊥)
        (λ copy. SpellsCopy text.now copy)) }
{
    let Some(front) = before(text.as_bytes(), ") TO STDOUT") else {
        return Ok(None);
    };
    match behind(front, "COPY (SELECT ") {
        Some(selected) => filtered_of(alloc, selected),
        None => whole_of(alloc, front),
    }
}

/// The one of all rows: its table, and then its columns.
fn whole_of(alloc: Global, text: &[u8]) -> Result<Option<CopyCommand>, AllocError>
    requires { IsUtf8 text.now }
    ensures { IfOk result (λ found. ReadsForm (λ copy. WholeAt text.now copy) found) }
{
    let Some(rest) = behind(text, "COPY ") else {
        return Ok(None);
    };
    let Some((table, rest)) = table_of(alloc, rest)? else {
        return Ok(None);
    };
    let Some(rest) = behind(rest, " (") else {
        return Ok(None);
    };
    let Some((columns, rest)) = columns_of(alloc, rest)? else {
        return Ok(None);
    };
    if !rest.is_empty() {
        return Ok(None);
    }
    Ok(Some(CopyCommand {
        table,
        columns,
        filter: None,
    }))
}

/// The one of the rows that pass a filter: its columns, then its table, and then the filter.
fn filtered_of(alloc: Global, text: &[u8]) -> Result<Option<CopyCommand>, AllocError>
    requires { IsUtf8 text.now }
    ensures { IfOk result (λ found. ReadsForm (λ copy. FilteredAt text.now copy) found) }
{
    let Some((columns, rest)) = columns_of(alloc, text)? else {
        return Ok(None);
    };
    let Some(rest) = behind(rest, " FROM ONLY ") else {
        return Ok(None);
    };
    let Some((table, rest)) = table_of(alloc, rest)? else {
        return Ok(None);
    };
    let Some(rest) = behind(rest, " WHERE ") else {
        return Ok(None);
    };
    let Ok(filter) = std::str::from_utf8(rest) else {
        return Ok(None);
    };
    Ok(Some(CopyCommand {
        table,
        columns,
        filter: Some(Text::copy_of(alloc, filter)?),
    }))
}

/// The table at the front, with its schema, and what follows it.
fn table_of(alloc: Global, text: &[u8]) -> Result<Option<(TableName, &[u8])>, AllocError>
    requires { IsUtf8 text.now }
    ensures { IfOk result
        (λ found. Reads (λ table rest. TableAt text.now table rest) EndsName found) }
{
    let Some((schema, rest)) = name_of(alloc, text)? else {
        return Ok(None);
    };
    let Some(rest) = behind(rest, ".") else {
        return Ok(None);
    };
    match name_of(alloc, rest)? {
        Some((name, rest)) => Ok(Some((TableName { schema, name }, rest))),
        None => Ok(None),
    }
}

/// The names at the front, one at least, with commas between, and what follows them; None also where they are more than a table
/// has columns.
fn columns_of(alloc: Global, text: &[u8]) -> Result<Option<(Items<Text>, &[u8])>, AllocError>
    requires { IsUtf8 text.now }
    ensures { IfOk result
        (λ found. Reads (λ columns rest. SomeColumnsAt text.now columns rest) EndsColumns found) }
{
    let mut columns = Vec::new(alloc);
    let mut place = text;
    while columns.len() < MOST_COLUMNS {
        let Some((name, rest)) = name_of(alloc, place)? else {
            return Ok(None);
        };
        columns.push(name)?;
        let Some(more) = behind(rest, ", ") else {
            return Ok(Some((Items::new(columns), rest)));
        };
        place = more;
    }
    Ok(None)
}

/// The name at the front, bare or in quotes, and what follows it.
fn name_of(alloc: Global, text: &[u8]) -> Result<Option<(Text, &[u8])>, AllocError>
    requires { IsUtf8 text.now }
    ensures { IfOk result (λ found. lent_text found ≡ name_front text.now) }
{
    match text.first() {
        Some(&NAME_QUOTE) => quoted_of(alloc, NAME_QUOTE, text),
        Some(b) if begins_name(*b) => bare_of(alloc, text),
        _ => Ok(None),
    }
}

/// The bare name that begins there.
fn bare_of(alloc: Global, text: &[u8]) -> Result<Option<(Text, &[u8])>, AllocError>
    ensures { IfOk result (λ found. lent_text found ≡ Some (name_run text.now)) }
{
    let (name, rest) = split_name(text);
    match std::str::from_utf8(name) {
        Ok(name) => Ok(Some((Text::copy_of(alloc, name)?, rest))),
        Err(_) => Ok(None),
    }
}

/// The bytes at the front that a name may have after its first, and what follows them.
fn split_name(text: &[u8]) -> (&[u8], &[u8])
    ensures whole { text.now ≡ result.0.now ++ result.1.now }
    ensures name { list_all goes_on_in_name result.0.now ≡ true }
    ensures end { begins goes_on_in_name result.1.now ≡ false }
{
    for (place, b) in text.iter().enumerate() {
        if !goes_on_in_name(*b) {
            return text.split_at(place);
        }
    }
    text.split_at(text.len())
}

fn begins_name(b: u8) -> bool
    ensures { result ≡ begins_name b }
{
    b.is_ascii_lowercase() || b == b'_'
}

fn goes_on_in_name(b: u8) -> bool
    ensures { result ≡ goes_on_in_name b }
{
    begins_name(b) || b.is_ascii_digit()
}
