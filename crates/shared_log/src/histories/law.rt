//! The rule of a history: its word is its length.

use crate::histories::entry::Entry;
use logbook::{Gain, Plain, Play, Rule};
use wal::Record;

/// The rule of the book that keeps the history.
pub struct Law;

impl Rule<Entry, u64> for Law {
    ghost use Rattle.std.specs.Prelude.{[]};
    ghost use base.Fml.{ftrue};
    ghost use Rattle.shared_log.specs.Book.{IsKept};

    ghost holds = { λ cells history. IsKept cells history };

    ghost first = { [] };

    ghost hinted = { λ n history. Unit {0} };

    ghost shows = { λ history. [] };

    ghost keeps = { λ names history. ftrue };

    ghost moves = { λ ask before after answer. Unit {0} };
}

/// Callers trade nothing.
pub(crate) struct Nothing;

impl Gain<Entry, u64> for Nothing {
    ghost use base.Fml.{ftrue};

    ghost after = { λ names about answer. ftrue };
}

/// A step that adds an entry.
pub(crate) struct Add;

impl Play<Entry, u64> for Add {
    ghost use Rattle.shared_log.specs.Book.{Adds};

    ghost then = { Adds };
}

/// A record is offered.
impl Plain<Record, Entry, u64> for Add {
    ghost use Rattle.std.specs.Prelude.{None};
    ghost use Rattle.shared_log.specs.declared.histories.entry.Entry.TheVariants.{Offered};

    ghost ask = { λ r. Offered r };

    ghost state = { λ r. None };
}

/// What was offered is confirmed.
pub(crate) struct Confirm;

impl Plain<(), Entry, u64> for Confirm {
    ghost use Rattle.std.specs.Prelude.{None};
    ghost use Rattle.shared_log.specs.declared.histories.entry.Entry.TheVariants.{Confirmed};

    ghost ask = { λ about. Confirmed };

    ghost state = { λ about. None };
}
