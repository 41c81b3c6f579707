//! A reader of the log.

ghost use Rattle.std.specs.Prelude.{◌≡◌, ◌+◌, ◌<◌, ◌≤◌, ◌^◌, ◌++◌, [], Err, List, true, IfErr, IfOk, OnErr, OnOk, drop, length, take, vec_len};
ghost use mathlib.Core.List.{IsPrefix};
ghost use Rattle.wal.specs.Log.{IsWellFormedLog};
ghost use Rattle.wal.specs.Records.{shared_records};
ghost use Rattle.shared_log.specs.SeenPrefixes.{ends_confirmed, settled_records, shown_records};
ghost use Rattle.shared_log.specs.Kept.{LiesFrom, kept_in, records_in};
ghost use Rattle.shared_log.specs.Removed.{IsUnread};

use crate::appending::receipt::Receipt;
use crate::fault::ReadFault;
use crate::histories::copy::{LogCopy, Logged};
use crate::histories::name::LogName;
use crate::histories::rule::{LogProtocol, Sees, View};
use crate::histories::seen_prefix::SeenPrefix;
use core::mem;
use left_right::reader::Reader;
use std::alloc::{AllocError, Global};
use std::collections::VecDeque;
use std::sync::Arc;
use wal::Record;

/// Reads the log from a place on. It takes no lock and waits for nobody.
#[derive(Drop)]
pub struct LogReader<L: LogName> {
    pub(crate) reader: Reader<LogCopy, View, LogProtocol<L>>,
    /// The place of the next record to fetch.
    pub(crate) place: usize,
    /// What it was told of the history.
    pub(crate) told: SeenPrefix<L>,
    ghost ends: { ends_confirmed told ≡ true },
}

impl<L: LogName> LogReader<L> {
    ghost use Rattle.shared_log.specs.Readers.{HasSeen, edge_of, seen_of};

    /// Up to `max` records from the reader's place on, and moves the place past them. `NoEntry` (E1) where the log lets no
    /// reader in, `Stale` (E1) where it lacks what was learnt of, `Memory` (E2), and `Removed` (E3) where the place stands
    /// before the records that lie in memory, which begin ever further on. The place stays then.
    pub fn fetch(&mut self, alloc: Global, max: usize) -> Result<Vec<Arc<Record>>, ReadFault>
        ensures grows { IsPrefix (seen_of self.old) (seen_of self.new) }
        ensures told { self.new.told ≡ self.old.told }
        ensures gives { IfOk result
            (λ v. (shared_records v.items ≡ take max (drop self.old.place (seen_of self.new)))
            × (self.new.place ≡ self.old.place + vec_len v)) }
        ensures holds { IfOk result
            (λ _. IsPrefix (settled_records self.new.told) (seen_of self.new)
            × IsWellFormedLog (seen_of self.new)) }
        ensures err { OnErr result (self.new.place ≡ self.old.place) }
        ensures why { IfErr result (λ fault. HasSeen fault self.old self.new) }
        ensures edge { edge_of self.old ≤ edge_of self.new }
        ensures from { OnOk result (edge_of self.new ≤ self.old.place) }
        ensures removed { result ≡ Err ReadFault.Removed → self.old.place < edge_of self.new }
    {
        mem::replace_with(self, (alloc, max), |reader, about: (Global, usize)| {
            reader.fetched(about.0, about.1)
        })
    }

    /// Learns of a record: the next fetch sees the log with it. It takes no memory and waits for nobody.
    pub fn learn(&mut self, receipt: &Receipt<L>)
        ensures kept { IsPrefix self.old.told self.new.told }
        ensures learnt { IsPrefix receipt.now.front self.new.told }
        ensures same { (seen_of self.new ≡ seen_of self.old) × (self.new.place ≡ self.old.place) }
    {
        self.told = self.told.longer(&receipt.front);
    }

    /// The place of the next record to fetch.
    pub fn place(&self) -> usize
        ensures { result ≡ self.now.place }
    {
        self.place
    }

    /// Goes to a place that it has seen already. Where its record was given back, the next fetch says so.
    pub fn seek(&mut self, place: usize)
        requires seen { place ≤ length (seen_of self.old) }
        ensures moved { self.new.place ≡ place }
        ensures same { (seen_of self.new ≡ seen_of self.old) × (self.new.told ≡ self.old.told) }
    {
        self.place = place;
    }

    /// What it is made of, since the log is entered with the reader alone.
    pub(crate) fn into_parts(self) -> (Reader<LogCopy, View, LogProtocol<L>>, usize, SeenPrefix<L>)
        ensures parts { result ≡ (self.reader, self.place, self.told) }
        ensures ends { ends_confirmed result.2 ≡ true }
    {
        let LogReader {
            reader,
            place,
            told,
        } = self;
        (reader, place, told)
    }

    pub(crate) fn of(
        reader: Reader<LogCopy, View, LogProtocol<L>>,
        place: usize,
        told: SeenPrefix<L>,
    ) -> Self
        requires ends { ends_confirmed told ≡ true }
        ensures parts { (result.reader ≡ reader) × (result.place ≡ place) × (result.told ≡ told) }
    {
        LogReader {
            reader,
            place,
            told,
        }
    }

    fn fetched(self, alloc: Global, max: usize) -> (Self, Result<Vec<Arc<Record>>, ReadFault>)
        ensures grows { IsPrefix (seen_of self) (seen_of result.0) }
        ensures told { result.0.told ≡ self.told }
        ensures gives { IfOk result.1
            (λ v. (shared_records v.items ≡ take max (drop self.place (seen_of result.0)))
            × (result.0.place ≡ self.place + vec_len v)) }
        ensures holds { IfOk result.1
            (λ _. IsPrefix (settled_records result.0.told) (seen_of result.0)
            × IsWellFormedLog (seen_of result.0)) }
        ensures err { OnErr result.1 (result.0.place ≡ self.place) }
        ensures why { IfErr result.1 (λ fault. HasSeen fault self result.0) }
        ensures edge { edge_of self ≤ edge_of result.0 }
        ensures from { OnOk result.1 (edge_of result.0 ≤ self.place) }
        ensures removed { result.1 ≡ Err ReadFault.Removed → self.place < edge_of result.0 }
    {
        // Entering takes the reader itself, which is put back on each way out.
        let (reader, place, told) = self.into_parts();
        match reader.enter_as::<Sees<L>>() {
            Err(reader) => {
                return (LogReader::of(reader, place, told), Err(ReadFault::NoEntry));
            }
            Ok(reading) => {
                let copy = reading.get();
                let is_there = told.is_in(&copy.mark);
                let got = part_of(alloc, copy, place, max);
                let reader = reading.leave();
                let mut left = LogReader::of(reader, place, told);
                if !is_there {
                    return (left, Err(ReadFault::Stale));
                }
                match got {
                    Ok(records) => {
                        left.place += records.len();
                        return (left, Ok(records));
                    }
                    Err(fault) => return (left, Err(fault)),
                }
            }
        }
    }
}

/// Up to `max` records from the place on, of those that lie in a copy.
fn part_of(
    alloc: Global,
    copy: &LogCopy,
    place: usize,
    max: usize,
) -> Result<Vec<Arc<Record>>, ReadFault>
    requires lies { LiesFrom (shown_records copy.now.mark.seen.log) copy.now.edge
        (kept_in copy.now.records.items) }
    ensures gives { IfOk result
        (λ v. shared_records v.items
        ≡ take max (drop place (shown_records copy.now.mark.seen.log))) }
    ensures from { OnOk result (copy.now.edge.place ≤ place) }
    ensures fits { IfOk result (λ v. place + vec_len v < 2 ^ 64) }
    ensures why { IfErr result (λ fault. IsUnread place copy.now.edge.place fault) }
{
    let skipped = match place.checked_sub(copy.edge.place) {
        Some(skipped) => skipped,
        None => return Err(ReadFault::Removed),
    };
    match shares(alloc, &copy.records, skipped, max) {
        Ok(records) => Ok(records),
        Err(_) => Err(ReadFault::Memory),
    }
}

/// Shares of up to `max` records that stand after the first `skipped`.
fn shares(
    alloc: Global,
    records: &VecDeque<Logged>,
    skipped: usize,
    max: usize,
) -> Result<Vec<Arc<Record>>, AllocError>
    ensures { IfOk result
        (λ v. shared_records v.items ≡ take max (drop skipped (records_in records.now.items))) }
{
    let from = skipped.min(records.len());
    let count = max.min(records.len() - from);
    let mut copies = Vec::with_capacity(alloc, count)?;
    for logged in records.range(from..from + count) {
        copies.push(Arc::try_clone(&logged.entry)?)?;
    }
    Ok(copies)
}
