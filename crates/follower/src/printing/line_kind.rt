//! What a line tells that is printed.

ghost use Rattle.std.specs.Prelude.{◌≡◌};
ghost use Rattle.follower.specs.LineKind.{told_begins, told_end, told_is_change, told_is_note, told_line};

use crate::printing::line::Line;
use message_lines::behind;

/// What a line tells that is printed.
#[derive(Clone, Copy)]
pub(crate) enum LineKind {
    Begin,
    Change,
    /// A message in a transaction.
    Message,
    /// A message outside of all, with where it starts.
    Note(u64),
    /// With where its transaction ends.
    Commit(u64),
}

impl LineKind {
    /// Its line, of so many bytes.
    pub(crate) fn line(self, length: u64) -> Line
        ensures { result ≡ told_line self length }
    {
        Line {
            length,
            begins: self.begins(),
            is_note: self.is_note(),
            is_change: self.is_change(),
            end: self.end(),
        }
    }

    fn begins(self) -> bool
        ensures { result ≡ told_begins self }
    {
        matches!(self, LineKind::Begin | LineKind::Note(_))
    }

    fn is_note(self) -> bool
        ensures { result ≡ told_is_note self }
    {
        matches!(self, LineKind::Note(_))
    }

    fn is_change(self) -> bool
        ensures { result ≡ told_is_change self }
    {
        matches!(self, LineKind::Change)
    }

    fn end(self) -> Option<u64>
        ensures { result ≡ told_end self }
    {
        match self {
            LineKind::Commit(end) => Some(end),
            LineKind::Note(start) => behind(start),
            LineKind::Begin | LineKind::Change | LineKind::Message => None,
        }
    }
}
