//! A file of the log that is written.

ghost use Rattle.std.specs.Prelude.{◌≡◌, ◌⊎◌, ◌≤◌, ◌++◌, ◌∷◌, [], ℕ, List, false, true, length, IsTrue, IfErr, IfOk, OnErr, OnOk, Err};
ghost use Rattle.sqlite_disk.specs.Disk.{MoreFaults};
ghost use Rattle.segments.specs.Entries.{Written, entries, header};
ghost use Rattle.segments.specs.Contents.{HasWritten, IsMarked};
ghost use Rattle.segments.specs.Crashes.{Outlives};

use crate::entry::put_entry;
use crate::fault::SegmentFault;
use crate::header::{HEADER_LENGTH, put_header};
use bytes::BytesMut;
use sqlite_disk::Disk;
use std::alloc::Global;

/// How many bytes the body of an entry may have.
pub const MAX_BODY_LENGTH: usize = 1 << 24;

/// A file of entries, written at its end. After a write or a sync that has failed, each call is `Failed`: what was synced by then is
/// there, and `open` finds it again.
#[derive(Drop)]
pub struct Segment<D: Disk + Drop> {
    pub(crate) disk: D,
    pub(crate) key: u64,
    /// Where the next entry goes.
    pub(crate) end: usize,
    /// Up to where it is on the disk.
    pub(crate) synced: usize,
    pub(crate) has_failed: bool,
    /// Room for an entry, and for what its digest is taken of.
    pub(crate) out: BytesMut,
    pub(crate) payload: BytesMut,
}

impl<D: Disk + Drop> Segment<D> {
    /// Begins a segment in an empty file, and puts its header on the disk. `key` is the key of its digests.
    pub fn create(alloc: Global, mut disk: D, key: u64) -> Result<Self, SegmentFault>
        requires usable { IsTrue (D.is_usable disk) }
        requires empty { D.seen disk ≡ [] }
        ensures written { IfOk result (λ s. HasWritten D.seen s []) }
        ensures key { IfOk result (λ s. s.key ≡ key) }
        ensures lasts { IfOk result (λ s. Outlives (header key) (D.may_leave s.disk)) }
        ensures marked { IfOk result (IsMarked D.seen D.may_leave) }
    {
        let mut out = BytesMut::new(alloc);
        let mut payload = BytesMut::new(alloc);
        put_header(key, &mut payload, &mut out)?;
        if disk.write_at(0, out.as_slice()).is_err() || disk.sync().is_err() {
            return Err(SegmentFault::Disk);
        }
        Ok(Segment {
            disk,
            key,
            end: HEADER_LENGTH,
            synced: HEADER_LENGTH,
            has_failed: false,
            out,
            payload,
        })
    }

    /// Writes an entry at the end. It isn't on the disk before a sync. `Failed`; `TooLong` where the body has more than
    /// `MAX_BODY_LENGTH` bytes; `Memory`, or `Disk` where it can't be written.
    pub fn append(&mut self, body: &[u8]) -> Result<(), SegmentFault>
        ensures written { OnOk result
            ((es : List Written) → HasWritten D.seen self.old es →
            HasWritten D.seen self.new
            (es ++ record { synced = self.old.synced; body = body.now } ∷ [])) }
        ensures lasts { (front : List ℕ) → length front ≤ self.old.end →
            Outlives front (D.may_leave self.old.disk) →
            Outlives front (D.may_leave self.new.disk) }
        ensures marked { OnOk result
            ((es : List Written) → HasWritten D.seen self.old es →
            IsMarked D.seen D.may_leave self.old → IsMarked D.seen D.may_leave self.new) }
        ensures unwritten { IfErr result
            (λ fault. (fault ≡ SegmentFault.Disk)
            ⊎ ((es : List Written) → HasWritten D.seen self.old es →
            HasWritten D.seen self.new es)) }
        ensures stops { result ≡ Err SegmentFault.Disk → self.new.has_failed ≡ true }
        ensures failed { result ≡ Err SegmentFault.Failed →
            (self.old.has_failed ≡ true) ⊎ (D.is_usable self.old.disk ≡ false) }
        ensures cause { result ≡ Err SegmentFault.Disk →
            MoreFaults (D.faults self.old.disk) (D.faults self.new.disk) }
        ensures stays { self.old.has_failed ≡ true →
            (result ≡ Err SegmentFault.Failed) × (self.new ≡ self.old) }
        ensures key { self.new.key ≡ self.old.key }
    {
        if self.has_failed || !self.disk.may_be_used() {
            return Err(SegmentFault::Failed);
        }
        if MAX_BODY_LENGTH < body.len() {
            return Err(SegmentFault::TooLong);
        }
        self.out.clear();
        put_entry(
            self.key,
            self.synced as u64,
            body,
            &mut self.payload,
            &mut self.out,
        )?;
        let Some(end) = self.end.checked_add(self.out.len()) else {
            return Err(SegmentFault::TooLong);
        };
        if self.disk.write_at(self.end, self.out.as_slice()).is_err() {
            self.has_failed = true;
            return Err(SegmentFault::Disk);
        }
        self.end = end;
        Ok(())
    }

    /// Puts all that was written on the disk. `Failed`, or `Disk` where it can't be put there.
    pub fn sync(&mut self) -> Result<(), SegmentFault>
        ensures lasts { OnOk result
            ((es : List Written) → HasWritten D.seen self.old es →
            HasWritten D.seen self.new es
            × Outlives (header self.new.key ++ entries self.new.key es)
            (D.may_leave self.new.disk)) }
        ensures kept { (front : List ℕ) → Outlives front (D.may_leave self.old.disk) →
            Outlives front (D.may_leave self.new.disk) }
        ensures marked { OnOk result
            ((es : List Written) → HasWritten D.seen self.old es →
            IsMarked D.seen D.may_leave self.new) }
        ensures stops { result ≡ Err SegmentFault.Disk → self.new.has_failed ≡ true }
        ensures failed { result ≡ Err SegmentFault.Failed →
            (self.old.has_failed ≡ true) ⊎ (D.is_usable self.old.disk ≡ false) }
        ensures cause { result ≡ Err SegmentFault.Disk →
            MoreFaults (D.faults self.old.disk) (D.faults self.new.disk) }
        ensures stays { self.old.has_failed ≡ true →
            (result ≡ Err SegmentFault.Failed) × (self.new ≡ self.old) }
        ensures key { self.new.key ≡ self.old.key }
    {
        if self.has_failed || !self.disk.may_be_used() {
            return Err(SegmentFault::Failed);
        }
        if self.disk.sync().is_err() {
            self.has_failed = true;
            return Err(SegmentFault::Disk);
        }
        self.synced = self.end;
        Ok(())
    }

    /// Gives the file back.
    pub fn end(self) -> D
        ensures { result ≡ self.disk }
    {
        let Segment { disk, .. } = self;
        disk
    }
}
