//! A transaction of a stream, as its follower sees it.

ghost use Rattle.std.specs.Prelude.{◌≡◌, IfOk};

use crate::fault::FollowFault;
use crate::library::row::Row;
use crate::library::told_tables::ToldTables;
use client::{Applied, ClientFault, PublishedChange};
use pgoutput::{Cell, Logical, Message, OldTuple, Relation, Update};

/// A transaction, or a message outside of all transactions, which is one by itself.
#[derive(Clone, Copy)]
pub struct Transaction<'a> {
    pub(crate) applied: &'a Applied,
    pub(crate) tables: &'a ToldTables,
}

/// What a transaction does.
#[derive(Clone, Copy)]
pub enum Change<'a> {
    /// The new row, of which every value is sent.
    Insert(Row<'a>),
    /// What is told of the old row, which is its key where that has changed and all of it where the table's identity is full; and the new
    /// row, of which a long value that is unchanged isn't sent.
    Update(Option<Row<'a>>, Row<'a>),
    /// What is told of the old row: its key, or all of it. What isn't told is null.
    Delete(Row<'a>),
    /// The OIDs of the tables that are emptied: `Transaction::table` tells their names.
    Truncate(&'a [u32]),
    /// A message that a session put into the log, where the options ask for messages.
    Message(&'a Message),
}

impl<'a> Transaction<'a> {
    /// Whether it is a message outside of all transactions: then its one change is that, and its time and its xid are 0.
    pub fn is_message(&self) -> bool
        ensures { result ≡ self.now.applied.now.is_note }
    {
        self.applied.is_note
    }

    /// The position where it ends. Once all up to there is acknowledged, another follower goes on after it.
    pub fn end(&self) -> u64
        ensures { result ≡ self.now.applied.now.end }
    {
        self.applied.end
    }

    /// When it committed, in microseconds since 2000-01-01.
    pub fn time(&self) -> i64
        ensures { result ≡ self.now.applied.now.time }
    {
        self.applied.time
    }

    /// The number of the transaction, which a server may use again (PostgreSQL 15, 55.9, Begin).
    pub fn xid(&self) -> u32
        ensures { result ≡ self.now.applied.now.xid }
    {
        self.applied.xid
    }

    /// What it does, in order: `read` reads each.
    pub fn changes(&self) -> &'a [PublishedChange]
        ensures { result.now ≡ self.now.applied.now.changes }
    {
        self.applied.changes.as_slice()
    }

    /// A change of it, with its values by the names of columns. `Client` where the table of its row wasn't told (K3).
    pub fn read(&self, change: &'a PublishedChange) -> Result<Change<'a>, FollowFault> {
        match &change.message {
            Logical::Insert(insert) => {
                let row = self.row(insert.oid, insert.new.as_slice())?;
                Ok(Change::Insert(row))
            }
            Logical::Update(update) => self.update(update),
            Logical::Delete(delete) => {
                let row = self.old_row(delete.oid, &delete.old)?;
                Ok(Change::Delete(row))
            }
            Logical::Truncate(truncate) => Ok(Change::Truncate(truncate.oids.as_slice())),
            Logical::Message(message) => Ok(Change::Message(message)),
            Logical::Begin(_) | Logical::Commit(_) | Logical::Relation(_) => {
                Err(FollowFault::Client(ClientFault::Order))
            }
        }
    }

    /// What was told of the table of this OID; None where nothing was.
    pub fn table(&self, oid: u32) -> Option<&'a Relation> {
        self.tables.get(oid)
    }

    fn update(&self, update: &'a Update) -> Result<Change<'a>, FollowFault> {
        let new = self.row(update.oid, update.new.as_slice())?;
        match &update.old {
            Some(old) => Ok(Change::Update(Some(self.old_row(update.oid, old)?), new)),
            None => Ok(Change::Update(None, new)),
        }
    }

    fn old_row(&self, oid: u32, old: &'a OldTuple) -> Result<Row<'a>, FollowFault> {
        match old {
            OldTuple::Key(cells) | OldTuple::Full(cells) => self.row(oid, cells.as_slice()),
        }
    }

    fn row(&self, oid: u32, cells: &'a [Cell]) -> Result<Row<'a>, FollowFault>
        ensures { IfOk result (λ row. row.cells.now ≡ cells.now) }
    {
        match self.table(oid) {
            Some(relation) => Ok(Row { relation, cells }),
            None => Err(FollowFault::Client(ClientFault::UnknownRelation)),
        }
    }
}
