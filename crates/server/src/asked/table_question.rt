//! The questions of one table, which a subscriber asks before it copies that.

ghost use Rattle.std.specs.Prelude.{◌≡◌, ◌<◌, ◌^◌, ◌++◌, ℕ, List, IfOk, MatchOption, codes, false, true};
ghost use Rattle.std.specs.Char.{is_ascii_digit};
ghost use Rattle.std.specs.Fmt.{decimal};
ghost use Rattle.std.specs.List.{list_all};
ghost use Rattle.std.specs.Str.{IsUtf8};
ghost use Rattle.pqformat.specs.Quoting.{begins};
ghost use Rattle.server.specs.Questions.{SpellsListed, SpellsQuestion, SpellsTable, attributes_text, column_lists_front, row_filters_front};
ghost use Rattle.server.specs.Reading.{AsksTable};
ghost use Rattle.server.specs.declared.asked.table_name.TableName.{TableName};

use crate::asked::list::{behind, names_of};
use crate::asked::literal::literal_of;
use crate::asked::question::Question;
use crate::asked::table_name::TableName;
use pqformat::{Items, Text, decimal_of};
use std::alloc::{AllocError, Global};

/// The question of one table that the text asks, all of it; None where it asks none.
pub(crate) fn table_question_of(alloc: Global, text: &str) -> Result<Option<Question>, AllocError>
    ensures { IfOk result
        (λ found. MatchOption found
        ((question : Question) → AsksTable question → SpellsQuestion text.now question → ⊥)
        (λ question. SpellsQuestion text.now question)) }
{
    if let Some(table) = table_of(alloc, text.as_bytes())? {
        return Ok(Some(Question::Table(table)));
    }
    if let Some((oid, names)) = column_lists_of(alloc, text.as_bytes())? {
        return Ok(Some(Question::ColumnLists(oid, names)));
    }
    if let Some(oid) = attributes_of(alloc, text.as_bytes())? {
        return Ok(Some(Question::Attributes(oid)));
    }
    match row_filters_of(alloc, text.as_bytes())? {
        Some((oid, names)) => Ok(Some(Question::RowFilters(oid, names))),
        None => Ok(None),
    }
}

/// The table of a question for one.
fn table_of(alloc: Global, text: &[u8]) -> Result<Option<TableName>, AllocError>
    requires { IsUtf8 text.now }
    ensures { IfOk result
        (λ found. MatchOption found ((table : TableName) → SpellsTable text.now table → ⊥)
        (λ table. SpellsTable text.now table)) }
{
    let front =
        "SELECT c.oid, c.relreplident, c.relkind  FROM pg_catalog.pg_class c  INNER JOIN pg_catalog.pg_namespace n        ON (c.relnamespace = n.oid) WHERE n.nspname = ";
    let Some(named) = behind(text, front) else {
        return Ok(None);
    };
    let Some((schema, rest)) = literal_of(alloc, named)? else {
        return Ok(None);
    };
    let Some(named) = behind(rest, "   AND c.relname = ") else {
        return Ok(None);
    };
    match literal_of(alloc, named)? {
        Some((name, rest)) if rest.is_empty() => Ok(Some(TableName { schema, name })),
        _ => Ok(None),
    }
}

fn column_lists_of(alloc: Global, text: &[u8]) -> Result<Option<(u32, Items<Text>)>, AllocError>
    requires { IsUtf8 text.now }
    ensures { IfOk result
        (λ found. MatchOption found
        ((oid : ℕ) (names : List (List ℕ)) → oid < 2 ^ 32 →
        SpellsListed text.now (column_lists_front oid) (codes " )") names → ⊥)
        (λ x. (x.0 < 2 ^ 32) × SpellsListed text.now (column_lists_front x.0) (codes " )") x.1)) }
{
    let front =
        "SELECT DISTINCT  (CASE WHEN (array_length(gpt.attrs, 1) = c.relnatts)   THEN NULL ELSE gpt.attrs END)  FROM pg_publication p,  LATERAL pg_get_publication_tables(p.pubname) gpt,  pg_class c WHERE gpt.relid = ";
    let Some((oid, rest)) = number_behind(alloc, text, front)? else {
        return Ok(None);
    };
    let Some(list) = behind(rest, " AND c.oid = gpt.relid   AND p.pubname IN ( ") else {
        return Ok(None);
    };
    match names_of(alloc, " )", list)? {
        Some(names) => Ok(Some((oid, names))),
        None => Ok(None),
    }
}

fn attributes_of(alloc: Global, text: &[u8]) -> Result<Option<u32>, AllocError>
    ensures { IfOk result
        (λ found. MatchOption found ((oid : ℕ) → oid < 2 ^ 32 → text.now ≡ attributes_text oid → ⊥)
        (λ oid. (oid < 2 ^ 32) × (text.now ≡ attributes_text oid))) }
{
    let front =
        "SELECT a.attnum,       a.attname,       a.atttypid,       a.attnum = ANY(i.indkey)  FROM pg_catalog.pg_attribute a  LEFT JOIN pg_catalog.pg_index i       ON (i.indexrelid = pg_get_replica_identity_index(";
    let Some((oid, rest)) = number_behind(alloc, text, front)? else {
        return Ok(None);
    };
    let middle =
        ")) WHERE a.attnum > 0::pg_catalog.int2   AND NOT a.attisdropped AND a.attgenerated = ''   AND a.attrelid = ";
    match number_behind(alloc, rest, middle)? {
        Some((again, end)) if again == oid && end == b" ORDER BY a.attnum".as_slice() => {
            Ok(Some(oid))
        }
        _ => Ok(None),
    }
}

fn row_filters_of(alloc: Global, text: &[u8]) -> Result<Option<(u32, Items<Text>)>, AllocError>
    requires { IsUtf8 text.now }
    ensures { IfOk result
        (λ found. MatchOption found
        ((oid : ℕ) (names : List (List ℕ)) → oid < 2 ^ 32 →
        SpellsListed text.now (row_filters_front oid) (codes " )") names → ⊥)
        (λ x. (x.0 < 2 ^ 32) × SpellsListed text.now (row_filters_front x.0) (codes " )") x.1)) }
{
    let front =
        "SELECT DISTINCT pg_get_expr(gpt.qual, gpt.relid)  FROM pg_publication p,  LATERAL pg_get_publication_tables(p.pubname) gpt WHERE gpt.relid = ";
    let Some((oid, rest)) = number_behind(alloc, text, front)? else {
        return Ok(None);
    };
    let Some(list) = behind(rest, "   AND p.pubname IN ( ") else {
        return Ok(None);
    };
    match names_of(alloc, " )", list)? {
        Some(names) => Ok(Some((oid, names))),
        None => Ok(None),
    }
}

/// The number after this text, and what follows it; None where none stands there, or another than an OID.
fn number_behind<'a>(
    alloc: Global,
    text: &'a [u8],
    front: &str,
) -> Result<Option<(u32, &'a [u8])>, AllocError>
    ensures { IfOk result
        (λ found. MatchOption found
        ((oid : ℕ) (rest : List ℕ) → oid < 2 ^ 32 → begins is_ascii_digit rest ≡ false →
        text.now ≡ front.now ++ (decimal oid ++ rest) → ⊥)
        (λ x. (x.0 < 2 ^ 32) × (begins is_ascii_digit x.1.now ≡ false)
        × (text.now ≡ front.now ++ (decimal x.0 ++ x.1.now)))) }
{
    match behind(text, front) {
        Some(numbered) => number_of(alloc, numbered),
        None => Ok(None),
    }
}

/// The number at the front, as it is printed, and what follows it.
fn number_of(alloc: Global, text: &[u8]) -> Result<Option<(u32, &[u8])>, AllocError>
    ensures { IfOk result
        (λ found. MatchOption found
        ((oid : ℕ) (rest : List ℕ) → oid < 2 ^ 32 → begins is_ascii_digit rest ≡ false →
        text.now ≡ decimal oid ++ rest → ⊥)
        (λ x. (x.0 < 2 ^ 32) × (begins is_ascii_digit x.1.now ≡ false)
        × (text.now ≡ decimal x.0 ++ x.1.now))) }
{
    let (digits, rest) = split_digits(text);
    let Some(number) = decimal_of(digits) else {
        return Ok(None);
    };
    let Ok(oid) = u32::try_from(number) else {
        return Ok(None);
    };
    let printed = format!(in alloc; "{oid}")?;
    if printed.as_bytes() == digits {
        Ok(Some((oid, rest)))
    } else {
        Ok(None)
    }
}

/// The digits at the front, and what follows them.
fn split_digits(text: &[u8]) -> (&[u8], &[u8])
    ensures whole { text.now ≡ result.0.now ++ result.1.now }
    ensures digits { list_all is_ascii_digit result.0.now ≡ true }
    ensures end { begins is_ascii_digit result.1.now ≡ false }
{
    for (place, b) in text.iter().enumerate() {
        if !b.is_ascii_digit() {
            return text.split_at(place);
        }
    }
    text.split_at(text.len())
}
