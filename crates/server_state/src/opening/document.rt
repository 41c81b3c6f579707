//! The document of a configuration, made of tables and publications that are told by values.

use crate::opening::new_publication::{NewMember, NewPublication};
use crate::opening::new_table::NewTable;
use std::alloc::{AllocError, Global};
use tables::Identity;
use toml::{Table as Members, Value};

/// The OID of the first table, as PostgreSQL gives the first to a user's table.
const FIRST_OID: i64 = 16384;

/// The document that a configuration of these would be.
pub(crate) fn document_of(
    alloc: Global,
    tables: &[NewTable<'_>],
    publications: &[NewPublication<'_>],
) -> Result<Value, AllocError> {
    let mut members = Members::new(alloc);
    add(&mut members, alloc, "table", tables_in(alloc, tables)?)?;
    add(
        &mut members,
        alloc,
        "publication",
        publications_in(alloc, publications)?,
    )?;
    Ok(Value::Table(members))
}

fn tables_in(alloc: Global, tables: &[NewTable<'_>]) -> Result<Value, AllocError> {
    let mut values = Vec::with_capacity(alloc, tables.len())?;
    let mut oid = FIRST_OID;
    for table in tables {
        values.push(table_in(alloc, oid, table)?)?;
        oid = oid.saturating_add(1);
    }
    Ok(Value::Array(values))
}

fn table_in(alloc: Global, oid: i64, table: &NewTable<'_>) -> Result<Value, AllocError> {
    let identity = match table.identity {
        Identity::Default => "default",
        Identity::Nothing => "nothing",
        Identity::Full => "full",
    };
    let mut members = Members::new(alloc);
    add(&mut members, alloc, "oid", Value::Integer(oid))?;
    add(&mut members, alloc, "schema", text(alloc, table.schema)?)?;
    add(&mut members, alloc, "name", text(alloc, table.name)?)?;
    add(&mut members, alloc, "identity", text(alloc, identity)?)?;
    add(&mut members, alloc, "key", texts(alloc, table.key)?)?;
    add(
        &mut members,
        alloc,
        "columns",
        columns_in(alloc, table.columns)?,
    )?;
    Ok(Value::Table(members))
}

fn columns_in(alloc: Global, columns: &[(&str, &str)]) -> Result<Value, AllocError> {
    let mut pairs = Vec::with_capacity(alloc, columns.len())?;
    for (name, kind) in columns {
        pairs.push(texts(alloc, &[*name, *kind])?)?;
    }
    Ok(Value::Array(pairs))
}

fn publications_in(
    alloc: Global,
    publications: &[NewPublication<'_>],
) -> Result<Value, AllocError> {
    let mut values = Vec::with_capacity(alloc, publications.len())?;
    for publication in publications {
        let mut members = Members::new(alloc);
        add(&mut members, alloc, "name", text(alloc, publication.name)?)?;
        let tables = members_in(alloc, publication.members)?;
        add(&mut members, alloc, "tables", tables)?;
        values.push(Value::Table(members))?;
    }
    Ok(Value::Array(values))
}

fn members_in(alloc: Global, published: &[NewMember<'_>]) -> Result<Value, AllocError> {
    let mut values = Vec::with_capacity(alloc, published.len())?;
    for member in published {
        values.push(member_in(alloc, member)?)?;
    }
    Ok(Value::Array(values))
}

fn member_in(alloc: Global, member: &NewMember<'_>) -> Result<Value, AllocError> {
    let mut members = Members::new(alloc);
    add(&mut members, alloc, "name", text(alloc, member.table)?)?;
    if let Some(columns) = member.columns {
        add(&mut members, alloc, "columns", texts(alloc, columns)?)?;
    }
    if let Some(filter) = member.filter {
        add(&mut members, alloc, "where", text(alloc, filter)?)?;
    }
    Ok(Value::Table(members))
}

fn texts(alloc: Global, each: &[&str]) -> Result<Value, AllocError> {
    let mut values = Vec::with_capacity(alloc, each.len())?;
    for one in each {
        values.push(text(alloc, one)?)?;
    }
    Ok(Value::Array(values))
}

fn text(alloc: Global, text: &str) -> Result<Value, AllocError> {
    Ok(Value::String(String::from_str(alloc, text)?))
}

/// Adds a member under a name that none has.
fn add(members: &mut Members, alloc: Global, name: &str, value: Value) -> Result<(), AllocError> {
    let name = match String::from_str(alloc, name) {
        Ok(name) => name,
        Err(refused) => {
            drop(value);
            return Err(refused);
        }
    };
    match members.insert(name, value) {
        Ok(_) => Ok(()),
        Err(refused) => {
            drop(refused);
            Err(AllocError)
        }
    }
}
