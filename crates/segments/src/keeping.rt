//! Who writes the records of a log into a segment, behind the log's other readers.

ghost use Rattle.std.specs.Prelude.{◌≡◌, ◌≢◌, ◌⊎◌, ◌+◌, ◌≤◌, ◌∷◌, ◌++◌, [], List, Err, IfErr, IfOk, OnOk, drop, length, take};
ghost use mathlib.Core.List.{IsPrefix};
ghost use Rattle.shared_log.specs.SeenPrefixes.{settled_records};
ghost use Rattle.shared_log.specs.Readers.{seen_of};
ghost use Rattle.wal.specs.Records.{shared_records};
ghost use Rattle.wal.specs.declared.record.Record.{Record as Logged};
ghost use Rattle.segments.specs.Contents.{HasWritten};
ghost use Rattle.segments.specs.Crashes.{Outlives};
ghost use Rattle.segments.specs.Entries.{Written, entries, header};
ghost use Rattle.segments.specs.Keeping.{HasLogged, Keeps};
ghost use Rattle.segments.specs.SlotEvents.{spell_event};

use crate::fault::SegmentFault;
use crate::keep_fault::KeepFault;
use crate::log_keeper::LogKeeper;
use crate::records::writing::put_record;
use crate::segment::Segment;
use crate::slot_events::slot_event::SlotEvent;
use crate::slot_events::writing::put_slot_event;
use bytes::BytesMut;
use shared_log::{LogName, LogReader};
use sqlite_disk::Disk;
use std::alloc::Global;
use std::sync::Arc;
use wal::Record;

impl<D: Disk + Drop, L: LogName> LogKeeper<D, L> {
    /// Goes on behind the first `place` records of the log, which end at this position, and which the segment has: those at the front
    /// may have been given back. `Read` where the reader isn't let in, or `Behind` where it sees fewer.
    pub fn resume(
        alloc: Global,
        segment: Segment<D>,
        mut reader: LogReader<L>,
        end: u64,
        place: usize,
    ) -> Result<Self, KeepFault>
        ensures keeps { IfOk result
            (λ k. HasLogged D.seen segment (take place (seen_of k.reader)) →
            Keeps D.seen k.segment k.reader) }
        ensures place { IfOk result (λ k. k.reader.place ≡ place) }
        ensures segment { IfOk result (λ k. k.segment ≡ segment) }
    {
        reader.resume(end, place)?;
        let behind = place.saturating_sub(reader.place());
        reader.fetch(alloc, behind)?;
        if reader.place() != place {
            return Err(KeepFault::Behind);
        }
        Ok(LogKeeper {
            segment,
            reader,
            body: BytesMut::new(alloc),
        })
    }

    /// Up to which place of the log its records were written.
    pub fn place(&self) -> usize
        ensures { result ≡ self.now.reader.place }
    {
        self.reader.place()
    }

    /// Writes up to `max` records more, and answers how many. They aren't on the disk before a sync. Where one can't be written, those
    /// before it are, unless it is the disk that has failed, after which nothing is written.
    pub fn write_on(&mut self, alloc: Global, max: usize) -> Result<usize, KeepFault>
        ensures keeps { result ≢ Err (KeepFault.Segment SegmentFault.Disk) →
            Keeps D.seen self.old.segment self.old.reader →
            Keeps D.seen self.new.segment self.new.reader }
        ensures count { IfOk result (λ n. self.new.reader.place ≡ self.old.reader.place + n) }
        ensures all { IfOk result (λ n. n ≡ length
            (take max (drop self.old.reader.place (seen_of self.new.reader)))) }
        ensures sees { OnOk result
            (IsPrefix (settled_records self.old.reader.told) (seen_of self.new.reader)) }
    {
        let records = self.reader.fetch(alloc, max)?;
        let count = records.len();
        let (written, done) = write_all(&mut self.segment, &mut self.body, records.as_slice());
        drop(records);
        if let Err(fault) = done {
            let place = self.reader.place() - (count - written);
            self.reader.seek(place);
            return Err(KeepFault::Segment(fault));
        }
        Ok(written)
    }

    /// Writes what became of a slot, beside the records. It isn't on the disk before a sync. It fails as `Segment::append` does.
    pub fn write_event(&mut self, event: &SlotEvent) -> Result<(), SegmentFault>
        ensures keeps { result ≢ Err SegmentFault.Disk →
            Keeps D.seen self.old.segment self.old.reader →
            Keeps D.seen self.new.segment self.new.reader }
        ensures written { OnOk result
            ((es : List Written) → HasWritten D.seen self.old.segment es →
            HasWritten D.seen self.new.segment
            (es ++ record { synced = self.old.segment.synced; body = spell_event event.now } ∷ [])) }
        ensures reader { self.new.reader ≡ self.old.reader }
    {
        self.body.clear();
        put_slot_event(event, &mut self.body)?;
        self.segment.append(self.body.as_slice())
    }

    /// Puts all that was written on the disk, as `Segment::sync` does.
    pub fn sync(&mut self) -> Result<(), SegmentFault>
        ensures keeps { OnOk result
            (Keeps D.seen self.old.segment self.old.reader →
            Keeps D.seen self.new.segment self.new.reader) }
        ensures lasts { OnOk result
            ((es : List Written) → HasWritten D.seen self.old.segment es →
            Outlives (header self.new.segment.key ++ entries self.new.segment.key es)
            (D.may_leave self.new.segment.disk)) }
        ensures reader { self.new.reader ≡ self.old.reader }
    {
        self.segment.sync()
    }

    /// Gives both back.
    pub fn end(self) -> (Segment<D>, LogReader<L>)
        ensures { result ≡ (self.segment, self.reader) }
    {
        let LogKeeper {
            segment,
            reader,
            body: _,
        } = self;
        (segment, reader)
    }
}

/// Writes records one after the other, up to one that can't be written, and answers how many were.
fn write_all<D: Disk + Drop>(
    segment: &mut Segment<D>,
    body: &mut BytesMut,
    records: &[Arc<Record>],
) -> (usize, Result<(), SegmentFault>)
    ensures within { result.0 ≤ length records.now }
    ensures whole { OnOk result.1 (result.0 ≡ length records.now) }
    ensures logged { result.1 ≢ Err SegmentFault.Disk →
        (log : List Logged) → HasLogged D.seen segment.old log →
        HasLogged D.seen segment.new (log ++ take result.0 (shared_records records.now)) }
{
    let mut written = 0;
    for record in records {
        if let Err(fault) = write_one(segment, body, record) {
            return (written, Err(fault));
        }
        written += 1;
    }
    (written, Ok(()))
}

fn write_one<D: Disk + Drop>(
    segment: &mut Segment<D>,
    body: &mut BytesMut,
    one: &Record,
) -> Result<(), SegmentFault>
    ensures logged { OnOk result
        ((log : List Logged) → HasLogged D.seen segment.old log →
        HasLogged D.seen segment.new (log ++ one.now ∷ [])) }
    ensures unwritten { IfErr result
        (λ fault. (fault ≡ SegmentFault.Disk)
        ⊎ ((log : List Logged) → HasLogged D.seen segment.old log →
        HasLogged D.seen segment.new log)) }
{
    body.clear();
    put_record(&one.body, body)?;
    segment.append(body.as_slice())
}
