//! Refusals of a configuration, for whoever wrote it.

use crate::document::config_fault::{PublicationMisfit, TablePlace};
use crate::fault::PubFault;
use catalog::Catalog;
use rowfilter::{FilterFault, MOST_BYTES, fault_at};
use std::alloc::{AllocError, Global};
use tables::{Kind, Table};
use toml::Value;

/// The most bytes of a text that a line shows, so that no line is long.
const MOST_SHOWN: usize = 120;

/// What is said of a filter that doesn't fit a table with such columns.
const COMPARED: &str =
    "\nonly bool, int2, int4, int8, text and uuid are compared; of other columns ask IS NULL or IS NOT NULL";

/// The most characters that it shows before a mark.
const MOST_BEFORE: usize = 30;

/// The fault that a document was refused with over this catalogue, in lines for whoever wrote it: the fault, the names of its
/// publication and its table, and of a filter that is none its text, with a mark under the byte at fault. `AllocError` where
/// memory for them is refused.
pub fn explained(
    alloc: Global,
    document: &Value,
    catalog: &Catalog,
    fault: PubFault,
) -> Result<String, AllocError> {
    let mut lines = format!(in alloc; "{fault}")?;
    if let Some(place) = place_of(fault) {
        push_place(alloc, &mut lines, document, catalog, place, fault)?;
    }
    Ok(lines)
}

/// Adds what the document says at the place of the fault.
fn push_place(
    alloc: Global,
    lines: &mut String,
    document: &Value,
    catalog: &Catalog,
    place: TablePlace,
    fault: PubFault,
) -> Result<(), AllocError> {
    let Some(publication) = numbered(document.get("publication"), place.publication) else {
        return Ok(());
    };
    push_names(lines, publication, catalog, place.table)?;
    match fault {
        PubFault::BadFilter(_, why) => {
            mark_filter(alloc, lines, publication, catalog, place.table, why)?;
            push_compared(lines, publication, catalog, place.table, why)
        }
        _ => Ok(()),
    }
}

/// Adds the names of the publication, and of its table of this number, each in a line of its own.
fn push_names(
    lines: &mut String,
    publication: &Value,
    catalog: &Catalog,
    number: usize,
) -> Result<(), AllocError> {
    if let Some(name) = name_of(publication) {
        push_both(lines, "\npublication ", name)?;
    }
    if let Some(name) = table_name(publication, number) {
        return push_both(lines, "\ntable ", name);
    }
    let Some(table) = whole_table(publication, catalog, number) else {
        return Ok(());
    };
    push_both(lines, "\ntable ", table.schema.as_str())?;
    push_both(lines, ".", table.name.as_str())
}

/// Adds these words, and as much of the text after them as a line shows.
fn push_both(lines: &mut String, words: &str, text: &str) -> Result<(), AllocError> {
    lines.push_str(words)?;
    lines.push_str(beginning(text))
}

/// As much of a text as a line shows.
fn beginning(text: &str) -> &str {
    match text.char_indices().find(|(at, _)| MOST_SHOWN <= *at) {
        Some((end, _)) => text.get(..end).unwrap_or(text),
        None => text,
    }
}

/// Where a fault stands; a fault of a publication alone at its table 0, which none is.
fn place_of(fault: PubFault) -> Option<TablePlace> {
    match fault {
        PubFault::BadFilter(place, _)
        | PubFault::NoIdentity(place)
        | PubFault::ListWithoutIdentity(place)
        | PubFault::FilterOutsideIdentity(place)
        | PubFault::BadToml(PublicationMisfit::Table(place, _)) => Some(place),
        PubFault::BadToml(PublicationMisfit::Publication(publication, _)) => Some(TablePlace {
            publication,
            table: 0,
        }),
        _ => None,
    }
}

/// The value of this number, from 1, of a list.
fn numbered(list: Option<&Value>, number: usize) -> Option<&Value> {
    list?.get(number.checked_sub(1)?)
}

fn name_of(value: &Value) -> Option<&str> {
    value.get("name")?.as_str()
}

fn table_name(publication: &Value, number: usize) -> Option<&str> {
    name_of(numbered(publication.get("tables"), number)?)
}

/// The table of this number of a publication of schemas, or of all tables.
fn whole_table<'c>(publication: &Value, catalog: &'c Catalog, number: usize) -> Option<&'c Table> {
    if publication.get("tables").is_some() {
        return None;
    }
    let before = number.checked_sub(1)?;
    match publication.get("schemas") {
        None => catalog.tables().get(before),
        Some(schemas) => table_after(schemas, catalog.tables(), before),
    }
}

/// The table of these schemas before which there are so many others of them.
fn table_after<'c>(schemas: &Value, tables: &'c [Table], before: usize) -> Option<&'c Table> {
    let mut left = before;
    for table in tables {
        if is_among(schemas, table.schema.as_str()) {
            match left.checked_sub(1) {
                None => return Some(table),
                Some(fewer) => left = fewer,
            }
        }
    }
    None
}

fn is_among(schemas: &Value, name: &str) -> bool {
    match schemas.as_array() {
        Some(values) => values
            .as_slice()
            .iter()
            .any(|value| value.as_str() == Some(name)),
        None => false,
    }
}

/// Adds the line of the filter's text that the fault stands in, and below it the mark.
fn mark_filter(
    alloc: Global,
    lines: &mut String,
    publication: &Value,
    catalog: &Catalog,
    number: usize,
    why: FilterFault,
) -> Result<(), AllocError> {
    let Some(value) = numbered(publication.get("tables"), number) else {
        return Ok(());
    };
    let Some(text) = text_of(value) else {
        return Ok(());
    };
    let Some(table) = table_of(value, catalog) else {
        return Ok(());
    };
    if MOST_BYTES < text.len() {
        return lines.push_str("\nthe condition has over 4096 bytes");
    }
    let at = fault_at(alloc, text, table, why)?;
    push_marked(lines, text, at)
}

/// Adds which columns are compared, where kinds are at fault and the table has others.
fn push_compared(
    lines: &mut String,
    publication: &Value,
    catalog: &Catalog,
    number: usize,
    why: FilterFault,
) -> Result<(), AllocError> {
    if why == FilterFault::TypeMismatch && is_incomparable(publication, catalog, number) {
        return lines.push_str(COMPARED);
    }
    Ok(())
}

/// Whether a column of the publication's table isn't compared with anything.
fn is_incomparable(publication: &Value, catalog: &Catalog, number: usize) -> bool {
    let Some(value) = numbered(publication.get("tables"), number) else {
        return false;
    };
    match table_of(value, catalog) {
        Some(table) => has_incomparable(table),
        None => false,
    }
}

fn has_incomparable(table: &Table) -> bool {
    table
        .columns
        .as_slice()
        .iter()
        .any(|column| matches!(column.kind, Kind::AsText(_)))
}

fn text_of(value: &Value) -> Option<&str> {
    value.get("where")?.as_str()
}

fn table_of<'c>(value: &Value, catalog: &'c Catalog) -> Option<&'c Table> {
    catalog.named(name_of(value)?)
}

/// The mark stands below the character that begins at this byte. Each line is indented alike.
fn push_marked(lines: &mut String, text: &str, at: usize) -> Result<(), AllocError> {
    let before = text.get(..at).unwrap_or(text);
    let line = match before.rfind('\n') {
        Some(end) => end.saturating_add(1),
        None => 0,
    };
    let shown = line.saturating_add(hidden(before.get(line..).unwrap_or("")));
    push_line(lines, text.get(shown..).unwrap_or(""))?;
    push_mark(lines, before.get(shown..).unwrap_or(""))
}

/// How many bytes of a line are left out before those that stand before a mark.
fn hidden(before: &str) -> usize {
    let count = before.chars().count();
    match count.checked_sub(MOST_BEFORE) {
        Some(left_out) => match before.char_indices().nth(left_out) {
            Some((at, _)) => at,
            None => before.len(),
        },
        None => 0,
    }
}

/// Adds the first line of the text.
fn push_line(lines: &mut String, text: &str) -> Result<(), AllocError> {
    push_both(lines, "\n    ", text.split('\n').next().unwrap_or(""))
}

/// Adds the mark after as many blanks as there are characters before it; a tab stands below a tab.
fn push_mark(lines: &mut String, before: &str) -> Result<(), AllocError> {
    lines.push_str("\n    ")?;
    for c in before.chars() {
        lines.push(if c == '\t' { '\t' } else { ' ' })?;
    }
    lines.push('^')
}
