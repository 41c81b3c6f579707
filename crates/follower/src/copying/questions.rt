//! What one who copies asks: the texts of PostgreSQL's own subscribers, of release 15.

use crate::quoting::{push_literal, push_quoted};
use pgoutput::Relation;
use pqformat::Text;
use std::alloc::{AllocError, Global};

/// Which of these publications there are.
pub(crate) fn publications(alloc: Global, names: &[Text]) -> Result<String, AllocError> {
    let front = "SELECT t.pubname FROM\n pg_catalog.pg_publication t WHERE\n t.pubname IN (";
    listed(front.to_string(alloc)?, names, ")")
}

/// Which tables they publish.
pub(crate) fn tables(alloc: Global, names: &[Text]) -> Result<String, AllocError> {
    let front =
        "SELECT DISTINCT t.schemaname, t.tablename \n, t.attnames\nFROM pg_catalog.pg_publication_tables t\n WHERE t.pubname IN (";
    listed(front.to_string(alloc)?, names, ")")
}

/// A table's OID, and its replica identity.
pub(crate) fn table(alloc: Global, schema: &str, name: &str) -> Result<String, AllocError> {
    let mut text =
        "SELECT c.oid, c.relreplident, c.relkind  FROM pg_catalog.pg_class c  INNER JOIN pg_catalog.pg_namespace n        ON (c.relnamespace = n.oid) WHERE n.nspname = ".to_string(
            alloc,
        )?;
    push_literal(&mut text, schema)?;
    text.push_str("   AND c.relname = ")?;
    push_literal(&mut text, name)?;
    Ok(text)
}

/// The numbers of its columns that these publications have, or null for all.
pub(crate) fn column_lists(alloc: Global, oid: u32, names: &[Text]) -> Result<String, AllocError> {
    let front = format!(in alloc;
        "SELECT DISTINCT  (CASE WHEN (array_length(gpt.attrs, 1) = c.relnatts)   THEN NULL ELSE gpt.attrs END)  FROM pg_publication p,  LATERAL pg_get_publication_tables(p.pubname) gpt,  pg_class c WHERE gpt.relid = {oid} AND c.oid = gpt.relid   AND p.pubname IN ( "
    )?;
    listed(front, names, " )")
}

/// Its columns: the number of each, its name, the OID of its type, and whether it belongs to the identity.
pub(crate) fn attributes(alloc: Global, oid: u32) -> Result<String, AllocError> {
    format!(in alloc;
        "SELECT a.attnum,       a.attname,       a.atttypid,       a.attnum = ANY(i.indkey)  FROM pg_catalog.pg_attribute a  LEFT JOIN pg_catalog.pg_index i       ON (i.indexrelid = pg_get_replica_identity_index({oid})) WHERE a.attnum > 0::pg_catalog.int2   AND NOT a.attisdropped AND a.attgenerated = ''   AND a.attrelid = {oid} ORDER BY a.attnum"
    )
}

/// The row filters by which these publications have it, each once; null for all rows.
pub(crate) fn row_filters(alloc: Global, oid: u32, names: &[Text]) -> Result<String, AllocError> {
    let front = format!(in alloc;
        "SELECT DISTINCT pg_get_expr(gpt.qual, gpt.relid)  FROM pg_publication p,  LATERAL pg_get_publication_tables(p.pubname) gpt WHERE gpt.relid = {oid}   AND p.pubname IN ( "
    )?;
    listed(front, names, " )")
}

/// The rows of a table that pass one of the filters, or all where there is none (PostgreSQL 15, COPY).
pub(crate) fn copy(
    alloc: Global,
    table: &Relation,
    filters: &[String],
) -> Result<String, AllocError> {
    let mut text = "COPY ".to_string(alloc)?;
    if filters.is_empty() {
        push_table(&mut text, table)?;
        text.push_str(" (")?;
        push_columns(&mut text, table)?;
    } else {
        text.push_str("(SELECT ")?;
        push_columns(&mut text, table)?;
        text.push_str(" FROM ONLY ")?;
        push_table(&mut text, table)?;
        text.push_str(" WHERE ")?;
        push_joined(&mut text, filters, " OR ")?;
    }
    text.push_str(") TO STDOUT")?;
    Ok(text)
}

fn listed(mut text: String, names: &[Text], end: &str) -> Result<String, AllocError> {
    for (at, name) in names.iter().enumerate() {
        if at > 0 {
            text.push_str(", ")?;
        }
        push_literal(&mut text, name.as_str())?;
    }
    text.push_str(end)?;
    Ok(text)
}

fn push_joined(text: &mut String, parts: &[String], between: &str) -> Result<(), AllocError> {
    for (at, part) in parts.iter().enumerate() {
        if at > 0 {
            text.push_str(between)?;
        }
        text.push_str(part.as_str())?;
    }
    Ok(())
}

fn push_table(text: &mut String, table: &Relation) -> Result<(), AllocError> {
    push_quoted(text, table.namespace.as_str(), '"')?;
    text.push('.')?;
    push_quoted(text, table.name.as_str(), '"')
}

fn push_columns(text: &mut String, table: &Relation) -> Result<(), AllocError> {
    for (at, column) in table.columns.as_slice().iter().enumerate() {
        if at > 0 {
            text.push_str(", ")?;
        }
        push_quoted(text, column.name.as_str(), '"')?;
    }
    Ok(())
}
