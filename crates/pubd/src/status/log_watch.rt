//! Whether the log is nearly full.

use std::fmt;
use std::sync::atomic::{AtomicBool, Ordering};

/// Looks at each commit whether nine tenths of the log's places are taken, and says so once, until less than half are: once all are,
/// changes are refused, until the slots that hold them move on.
#[derive(Drop)]
pub struct LogWatch {
    /// How many records the log has places for.
    places: usize,
    was_nearly_full: AtomicBool,
}

/// What is told of a log that is nearly full.
#[derive(Clone, Copy, Drop)]
pub struct NearlyFull {
    records: usize,
    places: usize,
}

impl LogWatch {
    pub fn new(places: usize) -> Self {
        LogWatch {
            places,
            was_nearly_full: AtomicBool::new(false),
        }
    }

    /// At a commit after which so many records are kept. None: they aren't nine tenths of the log, or that was told, and since then
    /// they have never been less than half.
    pub fn look(&self, records: usize) -> Option<NearlyFull> {
        if records < self.places / 2 {
            self.was_nearly_full.store(false, Ordering::SeqCst);
            return None;
        }
        let few = self.places - self.places / 10;
        if records < few || self.was_nearly_full.swap(true, Ordering::SeqCst) {
            return None;
        }
        Some(NearlyFull {
            records,
            places: self.places,
        })
    }
}

impl fmt::Display for NearlyFull {
    fn fmt<W: fmt::Write>(&self, f: &mut fmt::Formatter<W>) -> fmt::Result {
        write!(
            f,
            "pubd: the log is nearly full: {} of its {} records are there; once all are, changes are refused by S7",
            self.records, self.places
        )
    }
}
