//! Questions, and their reader.

ghost use Rattle.std.specs.Prelude.{◌≡◌, ◌≢◌, ℕ, List, IfOk, codes, MatchOption, false, nat_lt, true};
ghost use Rattle.std.specs.List.{list_all};
ghost use Rattle.std.specs.Str.{IsUtf8};
ghost use Rattle.pqformat.specs.Quoting.{in_quotes};
ghost use Rattle.replcmd.specs.Words.{is_slot_name};
ghost use Rattle.server.specs.Questions.{SpellsDrop, SpellsListed, SpellsQuestion, SpellsShow};
ghost use Rattle.server.specs.declared.asked.quoted.TheConstants.{NAME_QUOTE};
ghost use Rattle.server.specs.Reading.{AsksPublished, IsPlain};

use crate::asked::list::{before, behind, names_of};
use crate::asked::quoted::{NAME_QUOTE, quoted_of};
use crate::asked::table_name::TableName;
use crate::asked::table_question::table_question_of;
use pqformat::{Items, Text};
use replcmd::is_slot_name;
use std::alloc::{AllocError, Global};

/// A question of a client of PostgreSQL 15. Each has one text, but that a slot may be named with quotes or without.
#[derive(Debug, Drop)]
pub enum Question {
    /// That names without a schema mean nothing from here on: what `pg_recvlogical` and subscribers say first.
    SearchPath,
    /// That the initial copy of a table begins.
    InitialCopy,
    /// Which of these names are publications.
    Publications(Items<Text>),
    /// The tables of the publications of these names, as a server below 15 is asked.
    Tables(Items<Text>),
    /// The same tables with their columns that are published.
    Columns(Items<Text>),
    /// The table of this name.
    Table(TableName),
    /// Which columns of the table of this OID the publications of these names publish.
    ColumnLists(u32, Items<Text>),
    /// The columns of the table of this OID.
    Attributes(u32),
    /// Which rows of the table of this OID the publications of these names publish.
    RowFilters(u32, Items<Text>),
    /// The value of the parameter of this name. `pg_recvlogical` asks for `data_directory_mode`, to make its own files so.
    Show(Text),
    /// That a slot is dropped as soon as nobody holds it.
    DropWhenFree(Text),
}

/// The question that the text asks, all of it; None where it asks none. `AllocError` where memory is refused.
pub fn question_of(alloc: Global, text: &str) -> Result<Option<Question>, AllocError>
    // What is read is asked so, and where nothing is read nothing is asked.
    ensures { IfOk result
        (λ found. MatchOption found ((question : Question) → SpellsQuestion text.now question → ⊥)
        (λ question. SpellsQuestion text.now question)) }
{
    if let Some(question) = plain_of(text) {
        return Ok(Some(question));
    }
    if let Some(question) = published_of(alloc, text)? {
        return Ok(Some(question));
    }
    if let Some(question) = table_question_of(alloc, text)? {
        return Ok(Some(question));
    }
    if let Some(name) = parameter_of(alloc, text.as_bytes())? {
        return Ok(Some(Question::Show(name)));
    }
    match slot_of(alloc, text.as_bytes())? {
        Some(slot) => Ok(Some(Question::DropWhenFree(slot))),
        None => Ok(None),
    }
}

/// A question without names.
fn plain_of(text: &str) -> Option<Question>
    ensures { MatchOption result
        ((question : Question) → IsPlain question → SpellsQuestion text.now question → ⊥)
        (λ question. SpellsQuestion text.now question) }
{
    match text {
        "SELECT pg_catalog.set_config('search_path', '', false);" => Some(Question::SearchPath),
        "BEGIN READ ONLY ISOLATION LEVEL REPEATABLE READ" => Some(Question::InitialCopy),
        _ => None,
    }
}

/// A question for publications, or for their tables.
fn published_of(alloc: Global, text: &str) -> Result<Option<Question>, AllocError>
    ensures { IfOk result
        (λ found. MatchOption found
        ((question : Question) → AsksPublished question → SpellsQuestion text.now question → ⊥)
        (λ question. SpellsQuestion text.now question)) }
{
    let publications = "SELECT t.pubname FROM\n pg_catalog.pg_publication t WHERE\n t.pubname IN (";
    if let Some(names) = names_behind(alloc, text, publications)? {
        return Ok(Some(Question::Publications(names)));
    }
    let tables =
        "SELECT DISTINCT t.schemaname, t.tablename \nFROM pg_catalog.pg_publication_tables t\n WHERE t.pubname IN (";
    if let Some(names) = names_behind(alloc, text, tables)? {
        return Ok(Some(Question::Tables(names)));
    }
    let columns =
        "SELECT DISTINCT t.schemaname, t.tablename \n, t.attnames\nFROM pg_catalog.pg_publication_tables t\n WHERE t.pubname IN (";
    match names_behind(alloc, text, columns)? {
        Some(names) => Ok(Some(Question::Columns(names))),
        None => Ok(None),
    }
}

/// The names of the list after this text, where it stands at the front.
fn names_behind(alloc: Global, text: &str, front: &str) -> Result<Option<Items<Text>>, AllocError>
    requires { list_all (λ b. nat_lt b 128) front.now ≡ true }
    ensures { IfOk result
        (λ found. MatchOption found
        ((names : List (List ℕ)) → SpellsListed text.now front.now (codes ")") names → ⊥)
        (λ names. SpellsListed text.now front.now (codes ")") names)) }
{
    match behind(text.as_bytes(), front) {
        Some(list) => names_of(alloc, ")", list),
        None => Ok(None),
    }
}

/// The parameter that is to be shown.
fn parameter_of(alloc: Global, text: &[u8]) -> Result<Option<Text>, AllocError>
    ensures { IfOk result
        (λ found. MatchOption found ((name : List ℕ) → SpellsShow text.now name → ⊥)
        (λ name. SpellsShow text.now name)) }
{
    match behind(text, "SHOW ") {
        Some(named) => bare_of(alloc, named),
        None => Ok(None),
    }
}

/// The slot that is dropped once nobody holds it.
fn slot_of(alloc: Global, text: &[u8]) -> Result<Option<Text>, AllocError>
    requires { IsUtf8 text.now }
    ensures { IfOk result
        (λ found. MatchOption found ((slot : List ℕ) → SpellsDrop text.now slot → ⊥)
        (λ slot. SpellsDrop text.now slot)) }
{
    let Some(rest) = behind(text, "DROP_REPLICATION_SLOT ") else {
        return Ok(None);
    };
    let Some(named) = before(rest, " WAIT") else {
        return Ok(None);
    };
    match bare_of(alloc, named)? {
        Some(slot) => Ok(Some(slot)),
        None => quoted_slot_of(alloc, named),
    }
}

/// The name of a slot or of a parameter that stands there without quotes.
fn bare_of(alloc: Global, named: &[u8]) -> Result<Option<Text>, AllocError>
    ensures { IfOk result
        (λ found. MatchOption found (is_slot_name named.now ≡ false)
        (λ slot. (slot ≡ named.now) × (is_slot_name named.now ≡ true))) }
{
    match std::str::from_utf8(named) {
        Ok(slot) if is_slot_name(slot) => Ok(Some(Text::new(String::from_str(alloc, slot)?))),
        _ => Ok(None),
    }
}

/// The name of a slot that stands there in quotes.
fn quoted_slot_of(alloc: Global, named: &[u8]) -> Result<Option<Text>, AllocError>
    requires { IsUtf8 named.now }
    ensures { IfOk result
        (λ found. MatchOption found
        ((slot : List ℕ) → is_slot_name slot ≡ true → named.now ≢ in_quotes NAME_QUOTE slot)
        (λ slot. (is_slot_name slot ≡ true) × (named.now ≡ in_quotes NAME_QUOTE slot))) }
{
    let Some((slot, rest)) = quoted_of(alloc, NAME_QUOTE, named)? else {
        return Ok(None);
    };
    if rest.is_empty() && is_slot_name(slot.as_str()) {
        return Ok(Some(slot));
    }
    Ok(None)
}

/// The law of questions: a text asks one at most.
pub fn no_text_asks_two_questions()
    ensures { (text : List ℕ) (a b : Question) → SpellsQuestion text a → SpellsQuestion text b →
        a ≡ b }
{}
