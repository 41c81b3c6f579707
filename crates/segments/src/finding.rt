//! The entries of a content that a crash may have left.

ghost use Rattle.std.specs.Prelude.{◌≡◌, ◌≤◌, ◌-◌, ◌++◌, ℕ, Err, length, drop, take, IfOk, true, MatchBool};
ghost use Rattle.std.specs.List.{AllByRecursion};
ghost use Rattle.segments.specs.Entries.{Fits, Reads, entries, header};
ghost use Rattle.segments.specs.Contents.{Finds, IsDamaged, Tells, TellsMore};

use crate::entry::{Entry, entry_at};
use crate::fault::SegmentFault;
use crate::header::{HEADER_LENGTH, key_of};
use std::alloc::{AllocError, Global};

/// What a segment has.
#[derive(Drop)]
pub struct Content {
    /// The key of its digests.
    pub key: u64,
    pub entries: Vec<Entry>,
    /// Where its entries end.
    pub end: usize,
}

/// Reads the bytes of a segment that a crash may have left. What follows its entries isn't whole, and was never on the disk as a whole.
/// `NoSegment` or `Version` where its header isn't one of these, `Damaged` where later entries tell that more of it was on the disk,
/// or `Memory`.
pub fn read_content(alloc: Global, bytes: &[u8]) -> Result<Content, SegmentFault>
    ensures found { IfOk result (λ c. Finds c.key c.entries.items bytes.now) }
    ensures within { IfOk result (λ c. c.end ≤ length bytes.now) }
    ensures front { IfOk result
        (λ c. take c.end bytes.now ≡ header c.key ++ entries c.key c.entries.items) }
    ensures fit { IfOk result (λ c. AllByRecursion (Fits c.key) c.entries.items) }
    ensures whole { IfOk result (λ c. TellsMore c.key bytes.now c.end → ⊥) }
    ensures damaged { (at : ℕ) → result ≡ Err (SegmentFault.Damaged at) →
        IsDamaged bytes.now at }
{
    let key = key_of(bytes)?;
    let (_, after) = bytes.split_at(HEADER_LENGTH);
    let (entries, rest) = entries_in(alloc, key, after)?;
    let end = bytes.len() - rest;
    if tells_more(key, bytes, end) {
        drop(entries);
        return Err(SegmentFault::Damaged(end));
    }
    Ok(Content { key, entries, end })
}

/// The entries at the front, and how many bytes follow them, where none stands.
pub(crate) fn entries_in(
    alloc: Global,
    key: u64,
    bytes: &[u8],
) -> Result<(Vec<Entry>, usize), AllocError>
    ensures { IfOk result
        (λ found. (found.1 ≤ length bytes.now)
        × Reads key found.0.items bytes.now (drop (length bytes.now - found.1) bytes.now)) }
{
    let mut found = Vec::new(alloc);
    let mut rest = bytes;
    while let Some(entry) = entry_at(key, rest) {
        found.push(Entry {
            synced: entry.synced,
            body: copy_of(alloc, entry.body)?,
        })?;
        rest = entry.rest;
    }
    Ok((found, rest.len()))
}

/// Whether some entry at this place of the content or after it tells that more than so much was on the disk.
pub(crate) fn tells_more(key: u64, content: &[u8], at: usize) -> bool
    ensures { MatchBool result (TellsMore key content.now at)
        (TellsMore key content.now at → ⊥) }
{
    for later in at..content.len() {
        let (_, rest) = content.split_at(later);
        if tells(key, rest, at) {
            return true;
        }
    }
    false
}

/// The same of the entry at the front, if one stands there.
fn tells(key: u64, bytes: &[u8], at: usize) -> bool
    ensures { MatchBool result (Tells key bytes.now at) (Tells key bytes.now at → ⊥) }
{
    match entry_at(key, bytes) {
        Some(entry) => (at as u64) < entry.synced,
        None => false,
    }
}

fn copy_of(alloc: Global, bytes: &[u8]) -> Result<Vec<u8>, AllocError>
    ensures { IfOk result (λ copy. copy.items ≡ bytes.now) }
{
    let mut copy = Vec::new(alloc);
    copy.extend_from_slice(bytes)?;
    Ok(copy)
}
