//! Messages as lines of JSON, the tables that were told before them, and what an output holds with them.

use crate::fault::FollowFault;
use crate::printing::line_kind::LineKind;
use crate::printing::send_times::{SendTimes, push_sent};
use crate::receiving::streamed::{begin_of, commit_of};
use crate::resume_point::ResumePoint;
use client::{Applied, ClientFault};
use indexmap::IndexMap;
use message_lines::{
    begin_line, commit_line, delete_line, insert_line, message_line, summary_line, truncate_line,
    update_line,
};
use pgoutput::{Begin, Commit, Logical, Message, Relation, Truncate};
use std::alloc::{AllocError, Global};

/// What was told of tables, over all connections, and what the output holds with all lines that were made.
#[derive(Drop)]
pub(crate) struct JsonTranscript {
    alloc: Global,
    tables: IndexMap<u32, Relation>,
    kept: ResumePoint,
    /// Where they are printed.
    send_times: Option<SendTimes>,
}

impl JsonTranscript {
    /// Of an output that holds so much already.
    pub(crate) fn new(alloc: Global, kept: &ResumePoint, send_times: bool) -> Self {
        JsonTranscript {
            alloc,
            tables: IndexMap::new(alloc),
            kept: *kept,
            send_times: if send_times {
                Some(SendTimes::new(alloc))
            } else {
                None
            },
        }
    }

    /// Whether it prints when messages were sent.
    pub(crate) fn has_send_times(&self) -> bool {
        self.send_times.is_some()
    }

    /// The message was sent at this time of the server's clock. `AllocError` where memory to keep it is refused.
    pub(crate) fn note_sent(&mut self, message: &Logical, clock: i64) -> Result<(), AllocError> {
        match (&mut self.send_times, message) {
            (Some(times), Logical::Commit(commit)) => times.note(commit.end, clock),
            (Some(times), Logical::Message(said)) if !said.is_transactional => {
                times.note(said.position, clock)
            }
            _ => Ok(()),
        }
    }

    /// Whether something else was told of the table before.
    pub(crate) fn has_told_else(&self, relation: &Relation) -> bool {
        match self.tables.get(&relation.oid) {
            Some(told) => *told != *relation,
            None => false,
        }
    }

    /// Keeps what is told of a table. `AllocError` where memory for it is refused.
    pub(crate) fn tell(&mut self, relation: Relation) -> Result<(), AllocError> {
        let oid = relation.oid;
        self.tables.insert(oid, relation)?;
        Ok(())
    }

    /// Adds the lines of a transaction, or the one line of a note. Faults as of `add_message`.
    pub(crate) fn add(
        &mut self,
        transaction: &Applied,
        lines: &mut Vec<u8>,
    ) -> Result<(), FollowFault> {
        if transaction.is_note {
            return self.add_changes(transaction, lines);
        }
        self.add_begin(&begin_of(transaction), lines)?;
        self.add_changes(transaction, lines)?;
        self.add_commit(&commit_of(transaction), lines)
    }

    fn add_changes(
        &mut self,
        transaction: &Applied,
        lines: &mut Vec<u8>,
    ) -> Result<(), FollowFault> {
        for change in transaction.changes.as_slice() {
            self.add_message(change.position, &change.message, lines)?;
        }
        Ok(())
    }

    /// Adds the line of a message, or one for each table of a Truncate. A Relation has none. `Client` where its table wasn't told
    /// (K3), where a row has another count of values than that (K2), or where memory is refused (K5).
    pub(crate) fn add_message(
        &mut self,
        position: u64,
        message: &Logical,
        lines: &mut Vec<u8>,
    ) -> Result<(), FollowFault> {
        match message {
            Logical::Begin(begin) => self.add_begin(begin, lines),
            Logical::Commit(commit) => self.add_commit(commit, lines),
            Logical::Message(said) => self.add_said(said, lines),
            Logical::Truncate(truncate) => self.add_truncate(position, truncate, lines),
            Logical::Relation(_) => Ok(()),
            change => self.add_change(position, change, lines),
        }
    }

    fn add_change(
        &mut self,
        position: u64,
        change: &Logical,
        lines: &mut Vec<u8>,
    ) -> Result<(), FollowFault> {
        let line = match change {
            Logical::Insert(message) => {
                insert_line(self.alloc, position, self.table(message.oid)?, message)
            }
            Logical::Update(message) => {
                update_line(self.alloc, position, self.table(message.oid)?, message)
            }
            Logical::Delete(message) => {
                delete_line(self.alloc, position, self.table(message.oid)?, message)
            }
            _ => return Ok(()),
        };
        Ok(self.push(line?.as_slice(), LineKind::Change, lines)?)
    }

    fn add_truncate(
        &mut self,
        position: u64,
        truncate: &Truncate,
        lines: &mut Vec<u8>,
    ) -> Result<(), FollowFault> {
        for oid in truncate.oids.as_slice() {
            let line = truncate_line(self.alloc, position, self.table(*oid)?)?;
            self.push(line.as_slice(), LineKind::Change, lines)?;
        }
        Ok(())
    }

    fn add_begin(&mut self, begin: &Begin, lines: &mut Vec<u8>) -> Result<(), FollowFault> {
        let line = begin_line(self.alloc, begin)?;
        Ok(self.push(line.as_slice(), LineKind::Begin, lines)?)
    }

    fn add_commit(&mut self, commit: &Commit, lines: &mut Vec<u8>) -> Result<(), FollowFault> {
        let line = commit_line(self.alloc, commit)?;
        let told = LineKind::Commit(commit.end);
        Ok(self.push_timed(line.as_slice(), told, commit.end, lines)?)
    }

    fn add_said(&mut self, said: &Message, lines: &mut Vec<u8>) -> Result<(), FollowFault> {
        let line = message_line(self.alloc, said)?;
        if said.is_transactional {
            return Ok(self.push(line.as_slice(), LineKind::Message, lines)?);
        }
        let told = LineKind::Note(said.position);
        Ok(self.push_timed(line.as_slice(), told, said.position, lines)?)
    }

    fn table(&self, oid: u32) -> Result<&Relation, FollowFault> {
        match self.tables.get(&oid) {
            Some(table) => Ok(table),
            None => Err(FollowFault::Client(ClientFault::UnknownRelation)),
        }
    }

    /// Adds a line, and when it was sent, if that is printed.
    fn push_timed(
        &mut self,
        line: &[u8],
        told: LineKind,
        position: u64,
        lines: &mut Vec<u8>,
    ) -> Result<(), AllocError> {
        let sent = match &mut self.send_times {
            Some(times) => times.take(position),
            None => None,
        };
        let Some(sent) = sent else {
            return self.push(line, told, lines);
        };
        let mut timed = Vec::new(self.alloc);
        push_sent(self.alloc, line, sent, &mut timed)?;
        self.push(timed.as_slice(), told, lines)
    }

    /// Adds a line, which the output then holds.
    fn push(&mut self, line: &[u8], told: LineKind, lines: &mut Vec<u8>) -> Result<(), AllocError> {
        lines.extend_from_slice(line)?;
        self.kept.count(&told.line(line.len() as u64));
        Ok(())
    }

    /// The line after all others. `AllocError` where memory for it is refused.
    pub(crate) fn summary(&self) -> Result<Vec<u8>, AllocError> {
        let kept = &self.kept;
        summary_line(self.alloc, kept.transactions, kept.changes, kept.position)
    }
}
