//! What was seen of a history.

ghost use Rattle.std.specs.Prelude.{◌≡◌, ◌+◌, ◌<◌, ◌≤◌, ◌==◌, ◌^◌, ◌++◌, ◌∷◌, [], None, length, false, true, MatchBool};
ghost use mathlib.Core.List.{IsPrefix};
ghost use Rattle.shared_log.specs.Book.{IsLonger};
ghost use Rattle.shared_log.specs.SeenPrefixes.{ends_confirmed, settled_records, shown_records};
ghost use Rattle.shared_log.specs.declared.histories.entry.Entry.TheVariants.{Offered, Confirmed};

use crate::histories::entry::Entry;
use crate::histories::history::History;
use crate::histories::law::{Add, Confirm, Law, Nothing};
use crate::histories::mark::Mark;
use crate::histories::name::LogName;
use logbook::{Offer, Seen};
use std::marker::{Model, PhantomData};
use wal::Record;

/// A beginning of a log's history that was seen. It can be copied, and told to other threads. Contracts see its entries.
#[derive(Drop)]
pub struct SeenPrefix<L: LogName> {
    pub(crate) count: u64,
    pub(crate) seen: Seen<Entry, u64, Law>,
    pub(crate) of: PhantomData<L>,
}

impl<L: LogName> Model for SeenPrefix<L> {
    ghost use Rattle.std.specs.Prelude.{◌≡◌, List, length};
    ghost use Rattle.shared_log.specs.declared.histories.entry.Entry.{Entry as Step};

    ghost Value = { List Step };

    ghost view = { λ f. f.seen.log };

    ghost invariant = { λ f. (f.count ≡ length f.seen.log) × (f.seen.book ≡ L.book) };
}

impl<L: LogName> SeenPrefix<L> {
    pub(crate) fn again(&self) -> Self
        ensures { result ≡ self.now }
    {
        SeenPrefix {
            count: self.count,
            seen: self.seen.again(),
            of: PhantomData,
        }
    }

    /// The same without the log's name.
    pub(crate) fn mark(&self) -> Mark
        ensures { (result.seen.log ≡ self.now) × (result.seen.book ≡ L.book) }
    {
        Mark::of(self.count, &self.seen)
    }

    /// The longer of two fronts, which the other begins.
    pub(crate) fn longer(&self, other: &SeenPrefix<L>) -> Self
        ensures this { IsPrefix self.now result }
        ensures that { IsPrefix other.now result }
        ensures ends { ends_confirmed self.now ≡ true → ends_confirmed other.now ≡ true →
            ends_confirmed result ≡ true }
    {
        let mut both = self.seen.again();
        both.learn(&other.seen);
        if self.count < other.count {
            other.again()
        } else {
            self.again()
        }
    }

    /// Offers a record after all that was seen, and says whether it did. It did not where the history is longer.
    pub(crate) fn offer(&mut self, history: &History<L>, about: &Record) -> bool
        requires room { length self.old < 2 ^ 62 }
        ensures { MatchBool result (self.new ≡ self.old ++ Offered about.now ∷ [])
            (IsLonger self.old self.new) }
    {
        let mut offer: Offer<Entry, u64, Law, Nothing> = self
            .seen
            .plain::<Nothing, Record, Add>(about);
        let count = self.count;
        let found = exchange(history, count, &mut self.seen, &mut offer);
        self.count = if found == count { count + 1 } else { found };
        found == count
    }

    /// Confirms what was offered last, and says whether it did. It did not where the history is longer.
    pub(crate) fn confirm(&mut self, history: &History<L>) -> bool
        requires room { length self.old < 2 ^ 62 }
        ensures { MatchBool result (self.new ≡ self.old ++ Confirmed ∷ [])
            (IsLonger self.old self.new) }
    {
        let mut offer: Offer<Entry, u64, Law, Nothing> = self
            .seen
            .plain::<Nothing, (), Confirm>(&());
        let count = self.count;
        let found = exchange(history, count, &mut self.seen, &mut offer);
        self.count = if found == count { count + 1 } else { found };
        found == count
    }

    /// Whether the records that this front has settled are among those that the mark shows. Numbers alone are compared.
    pub(crate) fn is_in(&self, mark: &Mark) -> bool
        requires book { mark.now.seen.book ≡ L.book }
        requires ends { ends_confirmed self.now ≡ true }
        ensures held { result ≡ true
            → IsPrefix (settled_records self.now) (shown_records mark.now.seen.log) }
        ensures behind { result ≡ false →
            IsPrefix mark.now.seen.log self.now × (length mark.now.seen.log + 1 < length self.now) }
    {
        let mut both = self.seen.again();
        both.learn(&mark.seen);
        match self.count.checked_sub(1) {
            None => true,
            Some(before) => before <= mark.count,
        }
    }
}

/// Adds what an offer asks for after all that was seen, where the history is no longer than that, and answers how long it was.
fn exchange<L: LogName>(
    history: &History<L>,
    count: u64,
    seen: &mut Seen<Entry, u64, Law>,
    offer: &mut Offer<Entry, u64, Law, Nothing>,
) -> u64
    requires room { count < 2 ^ 62 }
    requires counted { length seen.old.log ≡ count }
    requires book { seen.old.book ≡ L.book }
    requires names { offer.old.names ≡ seen.old.names }
    requires plain { offer.old.state ≡ None }
    ensures added { MatchBool (result == count)
        (seen.new.log ≡ seen.old.log ++ offer.old.ask ∷ []) (length seen.new.log ≡ result) }
    ensures grows { IsPrefix seen.old.log seen.new.log }
    ensures book { seen.new.book ≡ seen.old.book }
{
    let mut pen = seen.no_pen();
    history
        .head
        .compare_exchange::<Add, Nothing>(count, count + 1, seen, offer, &mut pen)
}
