//! The copy of a table out of a snapshot (PostgreSQL 15, 31.7): its rows that pass a filter, with the columns that are asked for.

ghost use Rattle.std.specs.Prelude.{IfOk, IfSome};
ghost use Rattle.server.specs.RowText.{AreShortNext, AreShortValues};

use crate::publications::copied_row::copied_row;
use crate::publications::described::table_named;
use crate::publications::members::is_named;
use crate::publications::row_filters::publications_in;
use crate::server_state::ServerState;
use pqformat::{Items, Text};
use publication::Selection;
use publication_config::Publication;
use server::{BackendFault, TableName};
use shared_log::LogName;
use slots::SlotName;
use std::alloc::{AllocError, Global};
use std::slice;
use std::sync::{MutexGuard, Wait};
use tables::{Row, Table};
use txlog::Piece;

/// At how many places of the rows it is looked while the publisher is held.
const MOST_PLACES: usize = 256;

/// A copy that runs.
#[derive(Drop)]
pub struct TableCopy {
    snapshot: u64,
    oid: u32,
    /// What it hands over, as inserts.
    copied: Selection,
    /// Rows that were read and not handed over yet, the next one last.
    waiting: Vec<Row>,
    is_read: bool,
}

impl TableCopy {
    /// The next of the waiting rows that is handed over.
    fn next_waiting(&mut self, alloc: Global) -> Result<Option<Items<Option<Text>>>, AllocError>
        ensures { IfOk result (λ found. IfSome found AreShortValues) }
    {
        while let Some(row) = self.waiting.pop() {
            if let Some(values) = copied_row(alloc, &self.copied, self.oid, row)? {
                return Ok(Some(values));
            }
        }
        Ok(None)
    }
}

impl<L: LogName + SlotName> ServerState<L> {
    /// Begins the copy of a table out of a snapshot: these columns of the rows that pass this filter. `UnknownTable`, `UnknownColumn`
    /// where the columns aren't some of the table's in its order, `UnknownFilter`, `NotGranted` (A4) where the user may follow no
    /// publication that has so much of the table, or `Memory`.
    pub fn open_copy<R: Wait>(
        &self,
        rt: &R,
        snapshot: u64,
        user: Option<&str>,
        table: &TableName,
        columns: &[Text],
        filter: Option<&str>,
    ) -> Result<TableCopy, BackendFault> {
        let (oid, copied) = self.selection_of_copy(rt, user, table, columns, filter)?;
        let mut publisher = self.publisher.lock(rt);
        let begun = publisher.scan_snapshot(snapshot, oid);
        let _ = MutexGuard::unlock(publisher);
        match begun {
            Ok(()) => Ok(TableCopy {
                snapshot,
                oid,
                copied,
                waiting: Vec::new(self.alloc),
                is_read: false,
            }),
            Err(_) => {
                drop(copied);
                Err(BackendFault::NoCopies)
            }
        }
    }

    fn selection_of_copy<R: Wait>(
        &self,
        rt: &R,
        user: Option<&str>,
        table: &TableName,
        columns: &[Text],
        filter: Option<&str>,
    ) -> Result<(u32, Selection), BackendFault> {
        let Some(table) = table_named(
            &self.publications,
            table.schema.as_str(),
            table.name.as_str(),
        ) else {
            return Err(BackendFault::UnknownTable);
        };
        let Ok(listed) = listed_columns(self.alloc, table, columns) else {
            return Err(BackendFault::Memory);
        };
        let Some(listed) = listed else {
            return Err(BackendFault::UnknownColumn);
        };
        let names = names_of_filter(self.alloc, filter)?;
        if !self.may_copy(rt, user, table.oid, listed.as_slice(), names.as_slice()) {
            return Err(BackendFault::NotGranted);
        }
        match self
            .publications
            .copied(table.oid, listed.as_slice(), names.as_slice())
        {
            Ok(copied) => Ok((table.oid, copied)),
            Err(_) => Err(BackendFault::Memory),
        }
    }

    /// Whether a user may copy these columns by the filters of these publications: it may follow those, or, where there is no filter,
    /// one that has all rows.
    fn may_copy<R: Wait>(
        &self,
        rt: &R,
        user: Option<&str>,
        oid: u32,
        listed: &[bool],
        names: &[Text],
    ) -> bool {
        if user.is_none() {
            return true;
        }
        if names.is_empty() {
            return self.may_copy_whole(rt, user, oid, listed);
        }
        self.may_follow(rt, user, names)
            && have_columns(self.publications.publications(), names, oid, listed)
    }

    /// The same where there is no filter.
    fn may_copy_whole<R: Wait>(
        &self,
        rt: &R,
        user: Option<&str>,
        oid: u32,
        listed: &[bool],
    ) -> bool {
        for publication in self.publications.publications() {
            if has_whole(publication, oid, listed)
                && self.may_follow(rt, user, slice::from_ref(&publication.name))
            {
                return true;
            }
        }
        false
    }

    /// The next row of a copy; None at its end.
    pub fn next_row<R: Wait>(
        &self,
        rt: &R,
        copy: &mut TableCopy,
    ) -> Result<Option<Items<Option<Text>>>, BackendFault>
        ensures { AreShortNext result }
    {
        for _ in rt.forever() {
            match copy.next_waiting(self.alloc) {
                Ok(Some(values)) => return Ok(Some(values)),
                Ok(None) if copy.is_read => return Ok(None),
                Ok(None) => self.read_piece(rt, copy)?,
                Err(_) => return Err(BackendFault::Memory),
            }
        }
        Ok(None)
    }

    /// Reads on.
    fn read_piece<R: Wait>(&self, rt: &R, copy: &mut TableCopy) -> Result<(), BackendFault> {
        let mut publisher = self.publisher.lock(rt);
        let read = publisher.read_snapshot(copy.snapshot, MOST_PLACES);
        let _ = MutexGuard::unlock(publisher);
        match read {
            Ok(Piece { rows, is_last }) => {
                copy.waiting = rows;
                copy.waiting.reverse();
                copy.is_read = is_last;
                Ok(())
            }
            Err(_) => Err(BackendFault::Memory),
        }
    }
}

/// Whether a publication has all rows of a table, with these columns.
fn has_whole(publication: &Publication, oid: u32, listed: &[bool]) -> bool {
    match publication.table(oid) {
        Some(table) => table.filter.is_none() && covers(table.listed.as_slice(), listed),
        None => false,
    }
}

/// Whether each publication of these names has these columns of a table.
fn have_columns(publications: &[Publication], names: &[Text], oid: u32, listed: &[bool]) -> bool {
    publications
        .iter()
        .all(|p| !is_named(p, names) || has_columns(p, oid, listed))
}

/// Whether a publication has these columns of a table.
fn has_columns(publication: &Publication, oid: u32, listed: &[bool]) -> bool {
    match publication.table(oid) {
        Some(table) => covers(table.listed.as_slice(), listed),
        None => false,
    }
}

/// Whether a column list has each column of another.
fn covers(list: &[bool], other: &[bool]) -> bool {
    list.iter()
        .zip(other)
        .all(|(has, is_asked)| *has || !*is_asked)
}

/// The column list of these columns. None, unless they are some of the table's, in its order.
fn listed_columns(
    alloc: Global,
    table: &Table,
    columns: &[Text],
) -> Result<Option<Vec<bool>>, AllocError> {
    let mut listed = Vec::new(alloc);
    let mut rest = columns;
    for column in table.columns.as_slice() {
        let next = after_named(rest, column.name.as_str());
        listed.push(next.is_some())?;
        rest = next.unwrap_or(rest);
    }
    if rest.is_empty() {
        Ok(Some(listed))
    } else {
        Ok(None)
    }
}

/// What follows the name at the front, if that is this one.
fn after_named<'c>(names: &'c [Text], name: &str) -> Option<&'c [Text]> {
    let (first, rest) = names.split_first()?;
    if first.as_str() == name {
        Some(rest)
    } else {
        None
    }
}

/// The publications whose filters a COPY names; none where it names no filter.
fn names_of_filter(alloc: Global, filter: Option<&str>) -> Result<Items<Text>, BackendFault> {
    let Some(filter) = filter else {
        return Ok(Items::new(Vec::new(alloc)));
    };
    match publications_in(alloc, filter) {
        Ok(Some(names)) => Ok(names),
        Ok(None) => Err(BackendFault::UnknownFilter),
        Err(_) => Err(BackendFault::Memory),
    }
}
