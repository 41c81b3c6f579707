//! Transactions as lines of text, and the tables that were told before them.

ghost use Rattle.std.specs.Prelude.{◌≡◌, ◌++◌, ◌∷◌, [], List, ℕ, OnOk, false};
ghost use Rattle.message_lines.specs.Texts.{IsTextOf, commit_text};

use crate::receiving::streamed::{begin_of, commit_of};
use client::Applied;
use indexmap::IndexMap;
use message_lines::render;
use pgoutput::Logical;
use std::alloc::{AllocError, Global};

/// What was told of tables, over all connections, and whether it is printed already: the Relation of a table stands once in front
/// of its first change, though each connection tells it again.
#[derive(Drop)]
pub(crate) struct Transcript {
    alloc: Global,
    tables: IndexMap<u32, ToldTable>,
}

/// The line of a table's Relation.
#[derive(Drop)]
struct ToldTable {
    line: String,
    is_printed: bool,
}

impl Transcript {
    pub(crate) fn new(alloc: Global) -> Self {
        Transcript {
            alloc,
            tables: IndexMap::new(alloc),
        }
    }

    /// Keeps what a Relation tells. Any other message tells of no table. `AllocError` where memory for it is refused.
    pub(crate) fn tell(&mut self, message: &Logical) -> Result<(), AllocError> {
        let Logical::Relation(relation) = message else {
            return Ok(());
        };
        let line = render(self.alloc, message)?;
        if self.has_told(relation.oid, line.as_str()) {
            return Ok(());
        }
        let table = ToldTable {
            line,
            is_printed: false,
        };
        self.tables.insert(relation.oid, table)?;
        Ok(())
    }

    fn has_told(&self, oid: u32, line: &str) -> bool {
        match self.tables.get(&oid) {
            Some(table) => table.line.as_str() == line,
            None => false,
        }
    }

    /// Adds the lines of a transaction, or the one line of a note. `AllocError` where memory for them is refused.
    pub(crate) fn add(
        &mut self,
        transaction: &Applied,
        lines: &mut Vec<u8>,
    ) -> Result<(), AllocError>
        // What is printed of a transaction ends by the line of its Commit.
        ensures { OnOk result (transaction.now.is_note ≡ false → (front : List ℕ)
            × (lines.new.items
            ≡ front
            ++ (commit_text transaction.now.start transaction.now.end transaction.now.time
            ++ 10 ∷ []))) }
    {
        if transaction.is_note {
            return self.add_changes(transaction, lines);
        }
        self.add_message(Logical::Begin(begin_of(transaction)), lines)?;
        self.add_changes(transaction, lines)?;
        self.add_message(Logical::Commit(commit_of(transaction)), lines)
    }

    fn add_message(&self, message: Logical, lines: &mut Vec<u8>) -> Result<(), AllocError>
        ensures { OnOk result ((text : List ℕ) × IsTextOf message text
            × (lines.new.items ≡ lines.old.items ++ (text ++ 10 ∷ []))) }
    {
        let line = render(self.alloc, &message);
        drop(message);
        add_line(lines, line?.as_str())
    }

    fn add_changes(
        &mut self,
        transaction: &Applied,
        lines: &mut Vec<u8>,
    ) -> Result<(), AllocError> {
        for change in transaction.changes.as_slice() {
            self.add_tables(&change.message, lines)?;
            add_line(lines, render(self.alloc, &change.message)?.as_str())?;
        }
        Ok(())
    }

    /// The tables that a change names, where they aren't printed yet.
    fn add_tables(&mut self, change: &Logical, lines: &mut Vec<u8>) -> Result<(), AllocError> {
        match change {
            Logical::Insert(message) => self.add_table(message.oid, lines),
            Logical::Update(message) => self.add_table(message.oid, lines),
            Logical::Delete(message) => self.add_table(message.oid, lines),
            Logical::Truncate(message) => self.add_all(message.oids.as_slice(), lines),
            Logical::Begin(_) | Logical::Commit(_) | Logical::Relation(_) | Logical::Message(_) =>
                Ok(()),
        }
    }

    fn add_all(&mut self, oids: &[u32], lines: &mut Vec<u8>) -> Result<(), AllocError> {
        for oid in oids {
            self.add_table(*oid, lines)?;
        }
        Ok(())
    }

    fn add_table(&mut self, oid: u32, lines: &mut Vec<u8>) -> Result<(), AllocError> {
        if let Some(table) = self.tables.get_mut(&oid) {
            if !table.is_printed {
                add_line(lines, table.line.as_str())?;
                table.is_printed = true;
            }
        }
        Ok(())
    }
}

fn add_line(lines: &mut Vec<u8>, line: &str) -> Result<(), AllocError>
    ensures { OnOk result (lines.new.items ≡ lines.old.items ++ (line.now ++ 10 ∷ [])) }
{
    lines.extend_from_slice(line.as_bytes())?;
    lines.push(b'\n')?;
    Ok(())
}
