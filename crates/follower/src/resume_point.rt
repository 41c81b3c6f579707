//! What an output holds of earlier runs, told line by line: where the next one goes on.

ghost use Rattle.std.specs.Prelude.{◌≡◌, None, false, OnErr, OnOk};
ghost use Rattle.follower.specs.ResumePoint.{more_by, with_line};
ghost use Rattle.follower.specs.Lines.{IsLineOf};
ghost use Rattle.follower.specs.declared.printing.line.Line.{Line as ToldLine};

use crate::printing::form::Form;
use crate::printing::line::Line;
use std::alloc::{AllocError, Global};

/// Of the lines that were read, those up to the last whole Commit or note, and what stands after them.
#[derive(Clone, Copy)]
pub struct ResumePoint {
    /// How many bytes the lines take up to there.
    pub length: u64,
    /// How many transactions and notes they tell.
    pub transactions: u32,
    /// How many changes of tables they tell.
    pub changes: u64,
    /// The end of the last transaction, or one byte after the start of the last note; 0 where there is none.
    pub position: u64,
    /// How many bytes the lines take that were read after those.
    pub rest: u64,
    /// How many changes they tell.
    pub rest_changes: u64,
    /// Whether some line can't be what a run wrote there.
    pub is_foreign: bool,
}

impl ResumePoint {
    /// Of no line.
    pub fn new() -> Self
        ensures { result
            ≡ record {
              length = 0;
              transactions = 0;
              changes = 0;
              position = 0;
              rest = 0;
              rest_changes = 0;
              is_foreign = false;
            } }
    {
        ResumePoint {
            length: 0,
            transactions: 0,
            changes: 0,
            position: 0,
            rest: 0,
            rest_changes: 0,
            is_foreign: false,
        }
    }

    /// Takes the next line of this form, with its end if it has one. `AllocError` where memory to read it is refused: then nothing
    /// changes.
    pub fn take(&mut self, alloc: Global, form: Form, text: &[u8]) -> Result<(), AllocError>
        ensures ok { OnOk result
            ((line : ToldLine) × IsLineOf form text.now line × (self.new ≡ with_line self.old line)) }
        ensures err { OnErr result (self.new ≡ self.old) }
    {
        let line = Line::of(alloc, form, text)?;
        self.count(&line);
        Ok(())
    }

    /// What it comes to once what stands after the last whole Commit or note is cut off.
    pub(crate) fn cut(&self) -> Self
        ensures { result ≡ record self.now { rest = 0; rest_changes = 0 } }
    {
        ResumePoint {
            rest: 0,
            rest_changes: 0,
            ..*self
        }
    }

    pub(crate) fn count(&mut self, line: &Line)
        ensures { self.new ≡ with_line self.old line.now }
    {
        let is_first = self.rest == 0;
        self.is_foreign = self.is_foreign
            || (is_first && !line.begins)
            || (!is_first && line.is_note);
        self.rest = self.rest.saturating_add(line.length);
        self.rest_changes = more_by(self.rest_changes, line.is_change);
        if let Some(position) = line.end {
            self.length = self.length.saturating_add(self.rest);
            self.transactions = self.transactions.saturating_add(1);
            self.changes = self.changes.saturating_add(self.rest_changes);
            self.position = position;
            self.rest = 0;
            self.rest_changes = 0;
        }
    }
}

fn more_by(count: u64, is_one: bool) -> u64
    ensures { result ≡ more_by count is_one }
{
    if is_one {
        count.saturating_add(1)
    } else {
        count
    }
}
