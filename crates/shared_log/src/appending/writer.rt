//! The writer of the log.

ghost use Rattle.std.specs.Prelude.{◌≡◌, ◌+◌, ◌<◌, ◌≤◌, ◌^◌, ◌++◌, ◌∷◌, [], drop, length, false, true, vec_len, IfOk, OnErr};
ghost use mathlib.Core.List.{IsPrefix};
ghost use Rattle.wal.specs.Log.{IsWellFormedLog, end_of, is_note, size_of, top_of, xid_in};
ghost use Rattle.wal.specs.Records.{record_after};
ghost use Rattle.wal.specs.declared.record.TheConstants.{FIRST_POSITION};
ghost use Rattle.std.specs.Arc.{arc_value};
ghost use Rattle.std.specs.List.{AllByRecursion};
ghost use Rattle.shared_log.specs.SeenPrefixes.{ends_confirmed, settled_records};
ghost use Rattle.shared_log.specs.Openings.{owner_of};
ghost use Rattle.shared_log.specs.Telling.{TellsOf};
ghost use Rattle.shared_log.specs.Writing.{IsEmptyCopy, IsOutline, after_giving};

use crate::appending::given::next_edge;
use crate::appending::outline::Outline;
use crate::appending::receipt::Receipt;
use crate::appending::state::LogState;
use crate::following::reader::LogReader;
use crate::histories::copy::{LogCopy, PutRecord};
use crate::histories::empty_history::EmptyHistory;
use crate::histories::mark::Mark;
use crate::histories::name::LogName;
use crate::histories::rule::{LogProtocol, Sees, View};
use crate::histories::seen_prefix::SeenPrefix;
use core::mem;
use left_right::writer::Writer;
use std::alloc::{AllocError, Global};
use std::marker::Model;
use std::sync::{Arc, Wait};
use wal::{Body, LoggedChange, Record};

/// Writes the log, whose records readers see once they stand in it whole. Contracts see the records, and the place up to which they
/// may be given back: with each record that is added, copies give back a few of those before it.
///
/// It isn't `Drop`: `close` ends it.
pub struct LogWriter<L: LogName> {
    writer: Writer<LogCopy, PutRecord, View, LogProtocol<L>>,
    state: LogState<L>,
    /// Where the copies begin that have all that was published or waits.
    edge: usize,
    given: usize,
}

impl<L: LogName> Model for LogWriter<L> {
    ghost use Rattle.std.specs.Prelude.{drop};
    ghost use Rattle.shared_log.specs.SeenPrefixes.{settled_records};
    ghost use Rattle.shared_log.specs.Kept.{kept_in};
    ghost use Rattle.shared_log.specs.Writing.{Shows, Written};

    ghost Value = { Written };

    ghost view = { λ w. record { records = settled_records w.state; given = w.given } };

    ghost invariant = { λ w. let shown = w.writer.desk.shown.value in
        Shows (settled_records w.state) w.edge w.given shown.mark.seen.log shown.edge
        (kept_in shown.records.items) (drop w.writer.behind w.writer.log.items) };
}

impl<L: LogName> LogWriter<L> {
    ghost use Rattle.shared_log.specs.Readers.{seen_of};

    /// An empty log with room in memory for so many records, and as many readers. Where memory is refused, nothing is left of
    /// it. `AllocError` is answered then.
    pub fn open<R: Wait>(
        rt: &R,
        alloc: Global,
        opened: EmptyHistory,
        records: usize,
        readers: usize,
    ) -> Result<(Self, Vec<LogReader<L>>), AllocError>
        requires name { opened.seen.book ≡ L.book }
        requires some { 0 < readers }
        requires few { readers ≤ 2048 }
        ensures empty { IfOk result (λ r. r.0 ≡ record { records = []; given = 0 }) }
        ensures readers { IfOk result
            (λ r. (vec_len r.1 ≡ readers) × AllByRecursion (λ reader. reader.place ≡ 0) r.1.items) }
    {
        let state = LogState::<L>::open(alloc, opened)?;
        match copies_of(rt, alloc, state.front(), records, readers) {
            Ok((writer, made)) => {
                let log = LogWriter {
                    writer,
                    state,
                    edge: 0,
                    given: 0,
                };
                Ok((log, made))
            }
            Err(fault) => {
                // Let go by one call, which keeps the proof short.
                drop(state);
                Err(fault)
            }
        }
    }

    /// How many records the log has.
    pub fn count(&self) -> usize
        ensures { result ≡ length self.now.records }
    {
        self.state.count()
    }

    /// The position where the log ends.
    pub fn end(&self) -> u64
        ensures { result ≡ end_of FIRST_POSITION self.now.records }
    {
        self.state.end()
    }

    /// The place up to which records may be given back.
    pub fn given(&self) -> usize
        ensures value { result ≡ self.now.given }
        ensures within { self.now.given ≤ length self.now.records }
    {
        self.given
    }

    /// Lets the records before a place be given back, but for those from the oldest of a transaction in progress on. A reader that
    /// asks for one that was given back is told so.
    pub fn give_back(&mut self, up_to: usize)
        ensures { self.new ≡ after_giving up_to self.old }
    {
        self.given = self.given.max(up_to.min(self.state.oldest()));
    }

    /// Tells a reader of the whole log: its next fetch sees no less. It answers how many records that are, and takes no memory.
    pub fn tell(&mut self, reader: &mut LogReader<L>) -> usize
        ensures count { result ≡ length self.old.records }
        ensures same { self.new ≡ self.old }
        ensures kept { IsPrefix reader.old.told reader.new.told }
        ensures told { IsPrefix self.old.records (settled_records reader.new.told) }
        ensures place { (seen_of reader.new ≡ seen_of reader.old)
            × (reader.new.place ≡ reader.old.place) }
    {
        reader.told = reader.told.longer(self.state.sure());
        self.state.count()
    }

    /// Ends the log. It waits for readers that are in it; later fetches are `NoEntry` (E1).
    pub fn close<R: Wait>(self, rt: &R) {
        let LogWriter {
            writer,
            state: _,
            edge: _,
            given: _,
        } = self;
        drop(writer.take(rt));
    }

    /// Adds a record of the transaction `top` at the end. It waits for readers that are in an older copy. `AllocError` where
    /// memory is refused, or the history is as long as it may become; nothing is added then.
    pub fn push<R: Wait>(&mut self, rt: &R, top: u32, body: Body) -> Result<Receipt<L>, AllocError>
        requires fits { end_of FIRST_POSITION self.old.records + size_of body < 2 ^ 64 }
        requires good { IsWellFormedLog
            (self.old.records ++ record_after self.old.records body ∷ []) }
        requires top { top_of (self.old.records ++ record_after self.old.records body ∷ [])
            (xid_in body) ≡ top }
        requires own { is_note body ≡ false }
        ensures ok { IfOk result
            (λ r. (self.new.records ≡ self.old.records ++ record_after self.old.records body ∷ [])
            × TellsOf (record_after self.old.records body) r.start r.end
            × (r.place ≡ length self.old.records) × (settled_records r.front ≡ self.new.records)) }
        ensures err { OnErr result (self.new.records ≡ self.old.records) }
        ensures given { self.new.given ≡ self.old.given }
    {
        mem::replace_with(self, (rt, top, body), |writer, about: (&R, u32, Body)| {
            writer.pushed(about.0, Some(about.1), about.2)
        })
    }

    /// Adds a note at the end. It waits for readers that are in an older copy. `AllocError` where memory is refused, or the
    /// history is as long as it may become; nothing is added then.
    pub fn push_note<R: Wait>(
        &mut self,
        rt: &R,
        message: LoggedChange,
    ) -> Result<Receipt<L>, AllocError>
        requires fits { end_of FIRST_POSITION self.old.records + size_of (Body.Note message)
            < 2 ^ 64 }
        requires good { IsWellFormedLog
            (self.old.records ++ record_after self.old.records (Body.Note message) ∷ []) }
        ensures ok { IfOk result
            (λ r. (self.new.records
            ≡ self.old.records ++ record_after self.old.records (Body.Note message) ∷ [])
            × TellsOf (record_after self.old.records (Body.Note message)) r.start r.end
            × (r.place ≡ length self.old.records) × (settled_records r.front ≡ self.new.records)) }
        ensures err { OnErr result (self.new.records ≡ self.old.records) }
        ensures given { self.new.given ≡ self.old.given }
    {
        mem::replace_with(self, (rt, message), |writer, about: (&R, LoggedChange)| {
            writer.noted(about.0, about.1)
        })
    }

    fn noted<R: Wait>(self, rt: &R, message: LoggedChange) -> (Self, Result<Receipt<L>, AllocError>)
        requires fits { end_of FIRST_POSITION self.records + size_of (Body.Note message) < 2 ^ 64 }
        requires good { IsWellFormedLog
            (self.records ++ record_after self.records (Body.Note message) ∷ []) }
        ensures ok { IfOk result.1
            (λ r. (result.0.records
            ≡ self.records ++ record_after self.records (Body.Note message) ∷ [])
            × TellsOf (record_after self.records (Body.Note message)) r.start r.end
            × (r.place ≡ length self.records) × (settled_records r.front ≡ result.0.records)) }
        ensures err { OnErr result.1 (result.0.records ≡ self.records) }
        ensures given { result.0.given ≡ self.given }
    {
        self.pushed(rt, None, Body::Note(message))
    }

    fn pushed<R: Wait>(
        self,
        rt: &R,
        top: Option<u32>,
        body: Body,
    ) -> (Self, Result<Receipt<L>, AllocError>)
        requires fits { end_of FIRST_POSITION self.records + size_of body < 2 ^ 64 }
        requires good { IsWellFormedLog (self.records ++ record_after self.records body ∷ []) }
        requires top { owner_of (self.records ++ record_after self.records body ∷ [])
            (record_after self.records body) ≡ top }
        ensures ok { IfOk result.1
            (λ r. (result.0.records ≡ self.records ++ record_after self.records body ∷ [])
            × TellsOf (record_after self.records body) r.start r.end
            × (r.place ≡ length self.records) × (settled_records r.front ≡ result.0.records)) }
        ensures err { OnErr result.1 (result.0.records ≡ self.records) }
        ensures given { result.0.given ≡ self.given }
    {
        match self.state.draft(top, body) {
            Ok((entry, outline)) => self.offered(rt, entry, outline),
            Err(fault) => (self, Err(fault)),
        }
    }

    /// Offers the record to the history, publishes the log with it, and confirms it.
    fn offered<R: Wait>(
        self,
        rt: &R,
        entry: Arc<Record>,
        outline: Outline,
    ) -> (Self, Result<Receipt<L>, AllocError>)
        requires { IsOutline self.records (arc_value entry) outline }
        ensures ok { IfOk result.1
            (λ r. (result.0.records ≡ self.records ++ arc_value entry ∷ [])
            × TellsOf (arc_value entry) r.start r.end × (r.place ≡ length self.records)
            × (settled_records r.front ≡ result.0.records)) }
        ensures err { OnErr result.1 (result.0.records ≡ self.records) }
        ensures given { result.0.given ≡ self.given }
    {
        // Publishing takes the writer itself, so the log is taken apart and put together again.
        let LogWriter {
            mut writer,
            mut state,
            edge,
            given,
        } = self;
        let edge = next_edge(edge, given);
        let put = match state.offer(entry, outline, edge) {
            Ok(put) => put,
            Err(fault) => return (
                LogWriter {
                    writer,
                    state,
                    edge,
                    given,
                },
                Err(fault),
            ),
        };
        match writer.append(put) {
            Ok(()) => {}
            Err(_) => return (
                LogWriter {
                    writer,
                    state,
                    edge,
                    given,
                },
                Err(AllocError),
            ),
        }
        let (writer, published) = writer.publish_as::<Sees<L>, R>(rt);
        match published {
            Ok(()) => {
                let receipt = state.confirm(rt, outline);
                (
                    LogWriter {
                        writer,
                        state,
                        edge,
                        given,
                    },
                    Ok(receipt),
                )
            }
            Err(fault) => (
                LogWriter {
                    writer,
                    state,
                    edge,
                    given,
                },
                Err(fault),
            ),
        }
    }
}

/// The copies of a new log, of which nothing is left where memory is refused, and as many readers.
fn copies_of<L: LogName, R: Wait>(
    rt: &R,
    alloc: Global,
    front: &SeenPrefix<L>,
    records: usize,
    readers: usize,
) -> Result<
    (
        Writer<LogCopy, PutRecord, View, LogProtocol<L>>,
        Vec<LogReader<L>>,
    ),
    AllocError,
>
    requires fresh { front.now ≡ [] }
    requires some { 0 < readers }
    requires few { readers ≤ 2048 }
    ensures shown { IfOk result (λ made. IsEmptyCopy made.0.desk.shown.value
        × (made.0.desk.shown.value.mark.seen.log ≡ [])) }
    ensures waits { IfOk result (λ made. drop made.0.behind made.0.log.items ≡ []) }
    ensures readers { IfOk result
        (λ made. (vec_len made.1 ≡ readers)
        × AllByRecursion (λ reader. reader.place ≡ 0) made.1.items) }
{
    let writer = writer_of::<L>(alloc, records, &front.mark(), readers)?;
    match readers_of(alloc, &writer, front, readers) {
        Ok(made) => Ok((writer, made)),
        Err(fault) => {
            drop(writer.take(rt));
            Err(fault)
        }
    }
}

/// A writer of two empty copies.
fn writer_of<L: LogName>(
    alloc: Global,
    records: usize,
    mark: &Mark,
    readers: usize,
) -> Result<Writer<LogCopy, PutRecord, View, LogProtocol<L>>, AllocError>
    requires fresh { (mark.now.seen.log ≡ []) × (mark.now.seen.book ≡ L.book) }
    requires some { 0 < readers }
    requires few { readers ≤ 2048 }
    ensures shown { IfOk result (λ writer. IsEmptyCopy writer.desk.shown.value
        × (writer.desk.shown.value.mark.seen.log ≡ [])) }
    ensures waits { IfOk result (λ writer. drop writer.behind writer.log.items ≡ []) }
{
    let first = LogCopy::empty(alloc, records, mark)?;
    let second = LogCopy::empty(alloc, records, mark)?;
    Writer::new(alloc, first, second, readers)
}

/// As many readers of a new log.
fn readers_of<L: LogName>(
    alloc: Global,
    writer: &Writer<LogCopy, PutRecord, View, LogProtocol<L>>,
    front: &SeenPrefix<L>,
    count: usize,
) -> Result<Vec<LogReader<L>>, AllocError>
    requires fresh { ends_confirmed front.now ≡ true }
    ensures { IfOk result
        (λ readers. (vec_len readers ≡ count)
        × AllByRecursion (λ reader. reader.place ≡ 0) readers.items) }
{
    let mut readers = Vec::new(alloc);
    for _ in 0..count {
        let reader = writer.factory().reader()?;
        readers.push(LogReader {
            reader,
            place: 0,
            told: front.again(),
        })?;
    }
    Ok(readers)
}
