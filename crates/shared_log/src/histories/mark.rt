//! A beginning of a history, without the name of its log.

ghost use Rattle.std.specs.Prelude.{◌≡◌, ◌<◌, ◌^◌, length};

use crate::histories::entry::Entry;
use crate::histories::law::Law;
use logbook::Seen;

/// A beginning of a log's history that was seen, as it lies beside the records that it stands for.
#[derive(Drop)]
pub struct Mark {
    pub(crate) count: u64,
    pub(crate) seen: Seen<Entry, u64, Law>,
    ghost counted: { count ≡ length seen.log },
    ghost short: { length seen.log < 2 ^ 64 },
}

impl Mark {
    /// What was seen, and how long it is.
    pub(crate) fn of(count: u64, seen: &Seen<Entry, u64, Law>) -> Self
        requires { count ≡ length seen.now.log }
        ensures { result.seen ≡ seen.now }
    {
        Mark {
            count,
            seen: seen.again(),
        }
    }

    pub(crate) fn again(&self) -> Self
        ensures { result.seen ≡ self.now.seen }
    {
        Mark {
            count: self.count,
            seen: self.seen.again(),
        }
    }
}
