//! Where a reader begins that serves a stream from a position on.

ghost use Rattle.std.specs.Prelude.{◌≡◌, ◌≢◌, ◌+◌, ◌≤◌, Err, IfErr, IfNone, IfOk, IfSome, OnErr, OnOk, length, nat_lt, take};
ghost use mathlib.Core.List.{IsPrefix};
ghost use Rattle.wal.specs.Log.{IsWellFormedLog, end_of};
ghost use Rattle.wal.specs.Restart.{oldest, place_from, restart, restart_place};
ghost use Rattle.wal.specs.declared.record.TheConstants.{FIRST_POSITION};
ghost use Rattle.shared_log.specs.SeenPrefixes.{settled_records, shown_records};
ghost use Rattle.shared_log.specs.Kept.{LiesFrom, kept_in, records_in};
ghost use Rattle.shared_log.specs.Removed.{NeedsRemoved};

use crate::fault::ReadFault;
use crate::following::reader::LogReader;
use crate::histories::copy::{LogCopy, Logged};
use crate::histories::name::LogName;
use crate::histories::rule::Sees;
use core::mem;
use wal::FIRST_POSITION;

impl<L: LogName> LogReader<L> {
    ghost use Rattle.shared_log.specs.Readers.{HasSeen, edge_of, seen_of};

    /// Goes to the place from which a stream reads that starts at this position, and answers the position there. Of the log
    /// that it then sees the first `limit` records count. `NoEntry` (E1) where the log lets no reader in, `Stale` (E1) where it
    /// lacks what was learnt of, `Removed` (E3) where the stream may need records that were given back: the place stays. It
    /// takes no memory and waits for nobody.
    pub fn resume(&mut self, start: u64, limit: usize) -> Result<u64, ReadFault>
        ensures grows { IsPrefix (seen_of self.old) (seen_of self.new) }
        ensures told { self.new.told ≡ self.old.told }
        ensures place { OnOk result
            (self.new.place ≡ restart_place start (take limit (seen_of self.new))) }
        ensures position { IfOk result
            (λ position. position ≡ restart start (take limit (seen_of self.new))) }
        ensures holds { OnOk result
            (IsPrefix (settled_records self.new.told) (seen_of self.new)
            × IsWellFormedLog (seen_of self.new)) }
        ensures err { OnErr result (self.new.place ≡ self.old.place) }
        ensures why { IfErr result (λ fault. HasSeen fault self.old self.new) }
        ensures entry { result ≢ Err ReadFault.Memory }
        ensures edge { edge_of self.old ≤ edge_of self.new }
        ensures from { OnOk result (edge_of self.new ≤ self.new.place) }
        ensures removed { result ≡ Err ReadFault.Removed →
            NeedsRemoved start limit (edge_of self.new) (seen_of self.new) }
    {
        mem::replace_with(self, (start, limit), |reader, about: (u64, usize)| {
            reader.resumed(about.0, about.1)
        })
    }

    fn resumed(self, start: u64, limit: usize) -> (Self, Result<u64, ReadFault>)
        ensures grows { IsPrefix (seen_of self) (seen_of result.0) }
        ensures told { result.0.told ≡ self.told }
        ensures place { OnOk result.1
            (result.0.place ≡ restart_place start (take limit (seen_of result.0))) }
        ensures position { IfOk result.1
            (λ position. position ≡ restart start (take limit (seen_of result.0))) }
        ensures holds { OnOk result.1
            (IsPrefix (settled_records result.0.told) (seen_of result.0)
            × IsWellFormedLog (seen_of result.0)) }
        ensures err { OnErr result.1 (result.0.place ≡ self.place) }
        ensures why { IfErr result.1 (λ fault. HasSeen fault self result.0) }
        ensures entry { result.1 ≢ Err ReadFault.Memory }
        ensures edge { edge_of self ≤ edge_of result.0 }
        ensures from { OnOk result.1 (edge_of result.0 ≤ result.0.place) }
        ensures removed { result.1 ≡ Err ReadFault.Removed →
            NeedsRemoved start limit (edge_of result.0) (seen_of result.0) }
    {
        // Entering takes the reader itself, which is put back on each way out.
        let (reader, place, told) = self.into_parts();
        match reader.enter_as::<Sees<L>>() {
            Err(reader) => {
                return (LogReader::of(reader, place, told), Err(ReadFault::NoEntry));
            }
            Ok(reading) => {
                let copy = reading.get();
                let is_there = told.is_in(&copy.mark);
                let found = restart_of(copy, start, limit);
                let reader = reading.leave();
                if !is_there {
                    return (LogReader::of(reader, place, told), Err(ReadFault::Stale));
                }
                match found {
                    Some((first, position)) => {
                        return (LogReader::of(reader, first, told), Ok(position));
                    }
                    None => {
                        return (LogReader::of(reader, place, told), Err(ReadFault::Removed));
                    }
                }
            }
        }
    }
}

/// The restart place of the first `limit` records of the log for a start position, and its position; or none where what a stream
/// needs may stand before the records that lie in memory.
fn restart_of(copy: &LogCopy, start: u64, limit: usize) -> Option<(usize, u64)>
    requires lies { LiesFrom (shown_records copy.now.mark.seen.log) copy.now.edge
        (kept_in copy.now.records.items) }
    requires good { IsWellFormedLog (shown_records copy.now.mark.seen.log) }
    ensures place { IfSome result
        (λ at. at.0 ≡ restart_place start (take limit (shown_records copy.now.mark.seen.log))) }
    ensures position { IfSome result
        (λ at. at.1 ≡ restart start (take limit (shown_records copy.now.mark.seen.log))) }
    ensures from { IfSome result (λ at. copy.now.edge.place ≤ at.0) }
    ensures none { IfNone result
        (NeedsRemoved start limit copy.now.edge.place (shown_records copy.now.mark.seen.log)) }
{
    let within = match limit.checked_sub(copy.edge.place) {
        Some(within) => within,
        None => return None,
    };
    if 0 < copy.edge.place && start < copy.edge.position {
        return None;
    }
    let place = oldest_at(copy, place_from(copy, start).min(within));
    match place.checked_sub(copy.edge.place) {
        Some(at) => Some((place, position_at(copy, at))),
        None => None,
    }
}

/// How many of the records that lie in a copy start before the position, found by halving, since they rise.
fn place_from(copy: &LogCopy, start: u64) -> usize
    requires lies { LiesFrom (shown_records copy.now.mark.seen.log) copy.now.edge
        (kept_in copy.now.records.items) }
    requires good { IsWellFormedLog (shown_records copy.now.mark.seen.log) }
    ensures value { result ≡ place_from start (records_in copy.now.records.items) }
    ensures within { result ≤ length copy.now.records.items }
{
    copy.records.partition_point(
        |logged: &Logged| -> bool
            ensures { result ≡ nat_lt logged.now.entry.value.start start }
        { logged.entry.start < start },
    )
}

/// The place of the earliest record of a transaction that is in progress after so many of the records that lie in a copy, as it
/// was kept there.
fn oldest_at(copy: &LogCopy, count: usize) -> usize
    requires lies { LiesFrom (shown_records copy.now.mark.seen.log) copy.now.edge
        (kept_in copy.now.records.items) }
    requires within { count ≤ length copy.now.records.items }
    ensures { result
        ≡ oldest (take (copy.now.edge.place + count) (shown_records copy.now.mark.seen.log)) }
{
    if count == 0 {
        return copy.edge.restart;
    }
    copy.records[count - 1].restart
}

/// The position after so many of the records that lie in a copy: where the record before it ends.
fn position_at(copy: &LogCopy, count: usize) -> u64
    requires lies { LiesFrom (shown_records copy.now.mark.seen.log) copy.now.edge
        (kept_in copy.now.records.items) }
    requires within { count ≤ length copy.now.records.items }
    ensures { result ≡ end_of FIRST_POSITION
        (take (copy.now.edge.place + count) (shown_records copy.now.mark.seen.log)) }
{
    if count == 0 {
        return copy.edge.position;
    }
    copy.records[count - 1].entry.end
}
