//! A history before its log has a name.

ghost use Rattle.std.specs.Prelude.{◌≡◌, []};
ghost use Rattle.shared_log.specs.Book.{head_of};

use crate::histories::entry::Entry;
use crate::histories::history::History;
use crate::histories::law::Law;
use crate::histories::name::LogName;
use crate::histories::seen_prefix::SeenPrefix;
use logbook::{Seen, Start, Word};
use std::marker::PhantomData;

/// An empty history. Naming it takes no memory.
#[derive(Drop)]
pub struct EmptyHistory {
    head: Word<Entry, u64, Law>,
    pub seen: Seen<Entry, u64, Law>,
    pub ghost empty: { seen.log ≡ [] },
    pub ghost head_is: { head ≡ head_of seen.book },
}

impl EmptyHistory {
    pub fn new() -> Self {
        let (seen, mut first, _second) = Seen::open(Start::alone(), 0, 0);
        EmptyHistory {
            head: Word::tracked(0, &mut first),
            seen,
        }
    }

    /// The history under a name, and the front that has seen nothing.
    pub(crate) fn named<L: LogName>(self) -> (History<L>, SeenPrefix<L>)
        requires { self.seen.book ≡ L.book }
        ensures { result.1 ≡ [] }
    {
        let EmptyHistory { head, seen } = self;
        (
            History {
                head,
                of: PhantomData,
            },
            SeenPrefix {
                count: 0,
                seen,
                of: PhantomData,
            },
        )
    }
}
