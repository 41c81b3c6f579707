//! What comes of the lines of a script.

use super::refusal::ScriptRefusal;
use std::fmt;

/// What came of a line.
#[derive(Clone, Copy, Debug)]
pub enum Done {
    /// A session's line was done.
    Line,
    /// A transaction was committed, whose record ends at this position, and after it so many records of the log are kept.
    Commit { end: u64, kept: usize },
    /// A stream was steered, or waited for, or those that may connect were read again.
    Steered,
    Refused(ScriptRefusal),
    /// The server is to end.
    End,
}

impl Done {
    /// Whether it is told of a line of a script, whose sessions are told of only where they are refused.
    pub fn is_told(self) -> bool {
        matches!(self, Done::Steered | Done::Refused(_))
    }
}

impl fmt::Display for Done {
    fn fmt<W: fmt::Write>(&self, f: &mut fmt::Formatter<W>) -> fmt::Result {
        match self {
            Done::Refused(refusal) => write!(f, "{refusal}"),
            Done::Commit { end, .. } => write!(f, "ok {:X}/{:X}", end >> 32, end & 0xFFFF_FFFF),
            Done::Line | Done::Steered | Done::End => f.write_str("ok"),
        }
    }
}
