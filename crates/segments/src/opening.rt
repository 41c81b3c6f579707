//! A segment that is opened again.

ghost use Rattle.std.specs.Prelude.{◌≡◌, ◌≤◌, ◌++◌, ℕ, List, IsTrue, IfOk, OnOk, length, take};
ghost use Rattle.sqlite_disk.specs.Disk.{Only};
ghost use Rattle.segments.specs.Entries.{entries, header};
ghost use Rattle.segments.specs.Contents.{Finds, HasWritten, IsMarked};
ghost use Rattle.segments.specs.Crashes.{Outlives};

use crate::entry::Entry;
use crate::fault::SegmentFault;
use crate::finding::{Content, read_content};
use crate::header::HEADER_LENGTH;
use crate::segment::Segment;
use bytes::BytesMut;
use sqlite_disk::Disk;
use std::alloc::Global;

impl<D: Disk + Drop> Segment<D> {
    /// Opens a segment that a crash may have left, and answers its entries. An end that isn't whole is cut off. `NoSegment`, `Version`
    /// and `Damaged` as of `read_content`, `Disk` where it can't be read or cut, or `Memory`.
    pub fn open(alloc: Global, mut disk: D) -> Result<(Self, Vec<Entry>), SegmentFault>
        requires usable { IsTrue (D.is_usable disk) }
        requires rest { Only (D.seen disk) (D.may_leave disk) }
        ensures found { IfOk result
            (λ r. IsTrue (D.is_clean r.0.disk) → Finds r.0.key r.1.items (D.seen disk)) }
        ensures written { IfOk result
            (λ r. IsTrue (D.is_clean r.0.disk) → HasWritten D.seen r.0 r.1.items) }
        ensures lasts { IfOk result
            (λ r. IsTrue (D.is_clean r.0.disk) →
            Outlives (header r.0.key ++ entries r.0.key r.1.items) (D.may_leave r.0.disk)) }
        ensures marked { IfOk result
            (λ r. IsTrue (D.is_clean r.0.disk) → IsMarked D.seen D.may_leave r.0) }
    {
        let bytes = bytes_of(alloc, &mut disk)?;
        let Content { key, entries, end } = read_content(alloc, bytes.as_slice())?;
        cut_off(&mut disk, end, bytes.len())?;
        let segment = Segment {
            disk,
            key,
            end,
            synced: end,
            has_failed: false,
            out: BytesMut::new(alloc),
            payload: BytesMut::new(alloc),
        };
        Ok((segment, entries))
    }
}

impl<D: Disk + Drop> Segment<D> {
    /// Opens the segment of a file as `open` does, or begins one where the file is no longer than a header: then a crash has left it
    /// before any entry was on the disk, or it is new. The key of its digests is the one that the file comes with.
    pub fn open_or_create(alloc: Global, mut disk: D) -> Result<(Self, Vec<Entry>), SegmentFault>
        requires usable { IsTrue (D.is_usable disk) }
        requires rest { Only (D.seen disk) (D.may_leave disk) }
        ensures written { IfOk result
            (λ r. IsTrue (D.is_clean r.0.disk) → HasWritten D.seen r.0 r.1.items) }
    {
        let Ok(length) = disk.len() else {
            return Err(SegmentFault::Disk);
        };
        if HEADER_LENGTH < length {
            return Segment::open(alloc, disk);
        }
        let key = disk.key();
        if disk.set_len(0).is_err() {
            return Err(SegmentFault::Disk);
        }
        Ok((Segment::create(alloc, disk, key)?, Vec::new(alloc)))
    }
}

/// All bytes of a file.
fn bytes_of<D: Disk>(alloc: Global, disk: &mut D) -> Result<Vec<u8>, SegmentFault>
    requires { IsTrue (D.is_usable disk.old) }
    ensures read { IfOk result
        (λ bytes. IsTrue (D.is_clean disk.new) → bytes.items ≡ D.seen disk.old) }
    ensures seen { D.seen disk.new ≡ D.seen disk.old }
    ensures usable { IsTrue (D.is_usable disk.new) }
    ensures crash { (c : List ℕ) → D.may_leave disk.new c → D.may_leave disk.old c }
{
    let Ok(length) = disk.len() else {
        return Err(SegmentFault::Disk);
    };
    let mut bytes = Vec::from_elem(alloc, 0, length)?;
    if disk.read_at(0, bytes.as_mut_slice()).is_err() {
        return Err(SegmentFault::Disk);
    }
    Ok(bytes)
}

/// Cuts a file of this size off where its entries end, and puts that on the disk.
fn cut_off<D: Disk>(disk: &mut D, end: usize, size: usize) -> Result<(), SegmentFault>
    requires usable { IsTrue (D.is_usable disk.old) }
    requires rest { Only (D.seen disk.old) (D.may_leave disk.old) }
    ensures clean { IsTrue (D.is_clean disk.new) → IsTrue (D.is_clean disk.old) }
    ensures cut { OnOk result
        (end ≤ size → size ≡ length (D.seen disk.old) →
        D.seen disk.new ≡ take end (D.seen disk.old)) }
    ensures rest { OnOk result (Only (D.seen disk.new) (D.may_leave disk.new)) }
{
    if size <= end {
        return Ok(());
    }
    if disk.set_len(end).is_err() || disk.sync().is_err() {
        return Err(SegmentFault::Disk);
    }
    Ok(())
}
