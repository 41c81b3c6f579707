//! What the writer knows of its log.

ghost use Rattle.std.specs.Prelude.{◌≡◌, ◌+◌, ◌<◌, ◌^◌, ◌++◌, ◌∷◌, [], length, true, IfOk, OnErr, OnOk};
ghost use Rattle.std.specs.Arc.{arc_value};
ghost use Rattle.wal.specs.Log.{IsWellFormedLog, end_of, size_of};
ghost use Rattle.wal.specs.Records.{record_after};
ghost use Rattle.wal.specs.Restart.{oldest};
ghost use Rattle.wal.specs.declared.record.TheConstants.{FIRST_POSITION};
ghost use Rattle.shared_log.specs.SeenPrefixes.{ends_confirmed, settled_records};
ghost use Rattle.shared_log.specs.Openings.{owner_of};
ghost use Rattle.shared_log.specs.Writing.{IsOffered, IsOutline, IsPut};
ghost use Rattle.shared_log.specs.declared.histories.entry.Entry.TheVariants.{Confirmed, Offered};

use crate::appending::openings::Openings;
use crate::appending::outline::Outline;
use crate::appending::receipt::Receipt;
use crate::histories::copy::PutRecord;
use crate::histories::empty_history::EmptyHistory;
use crate::histories::history::History;
use crate::histories::name::LogName;
use crate::histories::seen_prefix::SeenPrefix;
use std::alloc::{AllocError, Global};
use std::marker::Model;
use std::sync::{Arc, Wait};
use wal::{Body, FIRST_POSITION, Record};

/// How long a history may become: each record that is written, or refused for memory, makes it longer.
const MOST_STEPS: u64 = 1 << 61;

/// What the writer knows of its log, beside the copies that readers see. Contracts see the history with all that was offered.
#[derive(Drop)]
pub(crate) struct LogState<L: LogName> {
    alloc: Global,
    history: History<L>,
    /// The history with all that was offered.
    front: SeenPrefix<L>,
    /// The history up to the record that was confirmed last.
    sure: SeenPrefix<L>,
    count: usize,
    end: u64,
    /// The transactions in progress, by which each record is told where to begin after it.
    openings: Openings,
}

impl<L: LogName> Model for LogState<L> {
    ghost use Rattle.std.specs.Prelude.{List};
    ghost use Rattle.shared_log.specs.Writing.{Stands};
    ghost use Rattle.shared_log.specs.declared.histories.entry.Entry.{Entry as Step};

    ghost Value = { List Step };

    ghost view = { λ s. s.front };

    ghost invariant = { λ s. Stands s.front s.sure s.count s.end s.openings };
}

impl<L: LogName> LogState<L> {
    /// Of an empty log.
    pub fn open(alloc: Global, opened: EmptyHistory) -> Result<Self, AllocError>
        requires { opened.seen.book ≡ L.book }
        ensures { IfOk result (λ state. state ≡ []) }
    {
        let openings = Openings::new(alloc)?;
        let (history, front) = opened.named::<L>();
        Ok(LogState {
            alloc,
            history,
            sure: front.again(),
            front,
            count: 0,
            end: FIRST_POSITION,
            openings,
        })
    }

    pub fn front(&self) -> &SeenPrefix<L>
        ensures { result.now ≡ self.now }
    {
        &self.front
    }

    /// The history up to the record that was confirmed last.
    pub fn sure(&self) -> &SeenPrefix<L>
        ensures alike { settled_records result.now ≡ settled_records self.now }
        ensures ends { ends_confirmed result.now ≡ true }
    {
        &self.sure
    }

    /// How many records the log has.
    pub fn count(&self) -> usize
        ensures { result ≡ length (settled_records self.now) }
    {
        self.count
    }

    /// The position where the log ends.
    pub fn end(&self) -> u64
        ensures { result ≡ end_of FIRST_POSITION (settled_records self.now) }
    {
        self.end
    }

    /// The record of this body, for the log's end, and its outline.
    pub fn draft(&self, top: Option<u32>, body: Body) -> Result<(Arc<Record>, Outline), AllocError>
        requires fits { end_of FIRST_POSITION (settled_records self.now) + size_of body < 2 ^ 64 }
        requires good { let log = settled_records self.now in
            IsWellFormedLog (log ++ record_after log body ∷ []) }
        requires top { let log = settled_records self.now in
            owner_of (log ++ record_after log body ∷ []) (record_after log body) ≡ top }
        ensures made { IfOk result
            (λ made. arc_value made.0 ≡ record_after (settled_records self.now) body) }
        ensures outline { IfOk result
            (λ made. IsOutline (settled_records self.now) (arc_value made.0) made.1) }
    {
        let start = self.end;
        let end = start + body.size();
        let is_last = matches!(body, Body::Commit(_, _) | Body::Abort(_));
        let entry = Arc::new(self.alloc, Record { start, end, body })?;
        let outline = Outline {
            start,
            end,
            top,
            is_last,
        };
        Ok((entry, outline))
    }

    /// The place of the oldest record of a transaction in progress, or the end of the log.
    pub fn oldest(&self) -> usize
        ensures { result ≡ oldest (settled_records self.now) }
    {
        self.openings.oldest(self.count)
    }

    /// Offers a record to the history, and answers what enters the copies, which then begin at the edge. Nothing is offered where
    /// memory is refused, nor where the history is too long.
    pub fn offer(
        &mut self,
        entry: Arc<Record>,
        outline: Outline,
        edge: usize,
    ) -> Result<PutRecord, AllocError>
        requires { IsOutline (settled_records self.old) (arc_value entry) outline }
        ensures put { IfOk result
            (λ put. IsPut L.book (settled_records self.old) (arc_value entry) self.new put) }
        ensures edge { IfOk result (λ put. put.edge ≡ edge) }
        ensures ok { OnOk result
            ((self.new ≡ self.old ++ Offered (arc_value entry) ∷ [])
            × IsOffered self.new outline) }
        ensures err { OnErr result (self.new ≡ self.old) }
    {
        self.openings.reserve()?;
        let mut next = self.front.again();
        if next.count >= MOST_STEPS || !next.offer(&self.history, &entry) {
            return Err(AllocError);
        }
        let restart = self
            .openings
            .restart_after(outline.top, outline.is_last, self.count);
        let put = PutRecord {
            place: self.count,
            entry,
            restart,
            edge,
            mark: next.mark(),
        };
        self.front = next;
        Ok(put)
    }

    /// Confirms the record that was offered last, which stands in the log from now on.
    pub fn confirm<R: Wait>(&mut self, rt: &R, outline: Outline) -> Receipt<L>
        requires { IsOffered self.old outline }
        ensures confirmed { self.new ≡ self.old ++ Confirmed ∷ [] }
        ensures bounds { (result.start ≡ outline.start) × (result.end ≡ outline.end) }
        ensures place { result.place ≡ length (settled_records self.old) }
        ensures front { result.front ≡ self.new }
    {
        let place = self.count;
        self.openings.note(outline.top, outline.is_last, place);
        self.front = confirmed(rt, &self.history, self.front.again());
        self.sure = self.front.again();
        self.count = place + 1;
        self.end = outline.end;
        Receipt {
            place,
            start: outline.start,
            end: outline.end,
            front: self.sure.again(),
        }
    }
}

/// The front with a confirmation. Nobody but the writer makes the history longer, so it is never refused; no contract knows.
fn confirmed<L: LogName, R: Wait>(
    rt: &R,
    history: &History<L>,
    front: SeenPrefix<L>,
) -> SeenPrefix<L>
    requires room { length front < 2 ^ 62 }
    ensures value { result ≡ front ++ Confirmed ∷ [] }
    ensures ends { ends_confirmed result ≡ true }
{
    let mut sure = front;
    if !sure.confirm(history) {
        for _ in rt.forever() {}
        unreachable!();
    }
    sure
}
