//! When the log came past which position.

ghost use Rattle.std.specs.Prelude.{◌≡◌, ◌++◌, [], ◌∷◌, IfOk, OnOk, false, true};
ghost use Rattle.server_state.specs.LogTimes.{TellNoLater, marks_of, merged, past};

use std::alloc::{AllocError, Global};

/// How many marks are kept at most: enough for a month, merged as they are.
const MOST_MARKS: usize = 1024;

/// A mark goes into the one before it where less time lies between them than this part of its age.
const PRECISION: u64 = 16;

/// How many microseconds always count as one moment.
const MOMENT: u64 = 1000;

/// Where the log ended once something was written, and when that was, in microseconds.
#[derive(Clone, Copy)]
struct LogTime {
    end: u64,
    at: u64,
}

impl LogTime {
    /// One mark in place of two, which tells the time of the earlier one.
    fn merged(self, other: LogTime) -> LogTime
        ensures { result ≡ merged self other }
    {
        LogTime {
            end: self.end.max(other.end),
            at: self.at.min(other.at),
        }
    }

    /// Whether, seen from now, it may tell the time of a later one too.
    fn is_close_to(self, later: LogTime, now: u64) -> bool {
        let age = now.saturating_sub(later.at);
        later.at.saturating_sub(self.at) <= (age / PRECISION).max(MOMENT)
    }
}

/// Marks of the log, in the order in which they came. Many are merged, so that a time is told that is too early: by at most a sixteenth
/// of its age, or a millisecond.
#[derive(Drop)]
pub(crate) struct LogTimes {
    alloc: Global,
    marks: Vec<LogTime>,
    last: Option<LogTime>,
}

impl LogTimes {
    pub fn new(alloc: Global) -> Self
        ensures { marks_of result ≡ [] }
    {
        LogTimes {
            alloc,
            marks: Vec::new(alloc),
            last: None,
        }
    }

    /// The log ends there now.
    pub fn note(&mut self, end: u64, now: u64)
        ensures { TellNoLater (marks_of self.old ++ record { end = end; at = now } ∷ [])
            (marks_of self.new) }
    {
        let mark = LogTime { end, at: now };
        match self.last {
            Some(last) => {
                self.last = if self.keep(last, now) {
                    Some(mark)
                } else {
                    Some(last.merged(mark))
                };
            }
            None => self.last = Some(mark),
        }
    }

    /// Keeps a mark after the others, where there is room for it, and answers whether there was.
    fn keep(&mut self, mark: LogTime, now: u64) -> bool
        ensures kept { result ≡ true → TellNoLater (self.old.marks.items ++ mark ∷ [])
            self.new.marks.items }
        ensures full { result ≡ false → TellNoLater self.old.marks.items self.new.marks.items }
        ensures last { self.new.last ≡ self.old.last }
    {
        self.thin(now);
        self.marks.len() < MOST_MARKS && self.marks.push(mark).is_ok()
    }

    /// Merges marks that are close, where there are as many as may be, and memory for that.
    fn thin(&mut self, now: u64)
        ensures marks { TellNoLater self.old.marks.items self.new.marks.items }
        ensures last { self.new.last ≡ self.old.last }
    {
        if self.marks.len() < MOST_MARKS {
            return;
        }
        if let Ok(marks) = thinned(self.alloc, self.marks.as_slice(), now) {
            self.marks = marks;
        }
    }

    /// When the log came past a position. None: it has told of no later one.
    pub fn past(&self, position: u64) -> Option<u64>
        ensures { result ≡ past position (marks_of self.now) }
    {
        match past_in(self.marks.as_slice(), position) {
            Some(at) => Some(at),
            None => match self.last {
                Some(mark) if position < mark.end => Some(mark.at),
                _ => None,
            },
        }
    }
}

fn past_in(marks: &[LogTime], position: u64) -> Option<u64>
    ensures { result ≡ past position marks.now }
{
    for mark in marks {
        if position < mark.end {
            return Some(mark.at);
        }
    }
    None
}

fn thinned(alloc: Global, marks: &[LogTime], now: u64) -> Result<Vec<LogTime>, AllocError>
    ensures { IfOk result (λ thinned. TellNoLater marks.now thinned.items) }
{
    let mut thinned = Vec::new(alloc);
    for mark in marks {
        add(&mut thinned, *mark, now)?;
    }
    Ok(thinned)
}

/// Adds a mark, or merges it with the last one, if they are close.
fn add(marks: &mut Vec<LogTime>, mark: LogTime, now: u64) -> Result<(), AllocError>
    ensures { OnOk result (TellNoLater (marks.old.items ++ mark ∷ []) marks.new.items) }
{
    match marks.pop() {
        Some(last) if last.is_close_to(mark, now) => {
            marks.push(last.merged(mark))?;
        }
        Some(last) => {
            marks.push(last)?;
            marks.push(mark)?;
        }
        None => {
            marks.push(mark)?;
        }
    }
    Ok(())
}
