//! The entries of each chunk, one after another from its front on, and the line of each in a directory that grows down from its end.

ghost use Rattle.std.specs.Prelude.{◌≡◌, ℕ, ◌+◌, ◌*◌, ◌<◌, ◌≤◌, ◌^◌, ◌++◌, ◌∷◌, [], IfOk, List, Some, drop, get_or, length, map, replicate, slice_set, take};
ghost use Rattle.chgarena.specs.Pages.{bytes_taken, line_of, line_place, with_entry};

use crate::region::Region;
use std::alloc::{AllocError, Global};
use std::marker::Model;

/// How many bytes a chunk has.
const CHUNK: usize = 16384;

/// How many bytes the line of an entry has.
const LINE: usize = 4;

/// The chunks of a region. Contracts see a list of entries for each.
#[derive(Drop)]
pub(crate) struct Pages {
    region: Region,
    used: Vec<usize>,
    counts: Vec<usize>,
}

impl Model for Pages {
    ghost use Rattle.std.specs.Prelude.{ℕ, List};
    ghost use Rattle.chgarena.specs.Pages.{IsPages, pages};

    ghost Value = { List (List (List ℕ)) };

    ghost view = { λ p. pages p.region p.counts.items };

    ghost invariant = { λ p. IsPages p.region p.used.items p.counts.items };
}

impl Pages {
    /// This many chunks, without entries.
    pub(crate) fn new(alloc: Global, chunks: usize) -> Result<Self, AllocError>
        requires { chunks < 2 ^ 32 }
        ensures { IfOk result (λ p. p ≡ replicate chunks []) }
    {
        Ok(Pages {
            region: Region::new(alloc, chunks * CHUNK)?,
            used: Vec::from_elem(alloc, 0, chunks)?,
            counts: Vec::from_elem(alloc, 0, chunks)?,
        })
    }

    /// How many bytes of a chunk are left.
    pub(crate) fn left(&self, chunk: usize) -> usize
        requires { chunk < length self.now }
        ensures { result + bytes_taken (get_or self.now chunk []) ≡ 16384 }
    {
        CHUNK - self.used[chunk]
    }

    /// How many entries a chunk has.
    pub(crate) fn count(&self, chunk: usize) -> usize
        requires { chunk < length self.now }
        ensures { result ≡ length (get_or self.now chunk []) }
    {
        self.counts[chunk]
    }

    /// Makes a chunk one without entries.
    pub(crate) fn clear(&mut self, chunk: usize)
        requires { chunk < length self.old }
        ensures { self.new ≡ slice_set self.old chunk [] }
    {
        self.used[chunk] = 0;
        self.counts[chunk] = 0;
    }

    /// Adds an entry to a chunk that has room for it.
    pub(crate) fn append(&mut self, chunk: usize, entry: &[u8])
        requires chunk { chunk < length self.old }
        requires room { bytes_taken (get_or self.old chunk []) + (length entry.now + 4) ≤ 16384 }
        ensures { self.new ≡ slice_set self.old chunk (get_or self.old chunk [] ++ entry.now ∷ []) }
    {
        let used = CHUNK - self.left(chunk);
        let count = self.count(chunk);
        write_entry(&mut self.region, chunk, count, used - count * LINE, entry);
        self.used[chunk] = used + (LINE + entry.len());
        self.counts[chunk] = count + 1;
    }

    /// The k-th entry of a chunk.
    pub(crate) fn entry(&self, chunk: usize, k: usize) -> &[u8]
        requires chunk { chunk < length self.now }
        requires entry { k < length (get_or self.now chunk []) }
        ensures { result.now ≡ get_or (get_or self.now chunk []) k [] }
    {
        let (from, size) = read_line(&self.region, line_at(chunk, k));
        self.region.lend(chunk * CHUNK + from, size)
    }
}

/// Where the line of the k-th entry of a chunk lies.
fn line_at(chunk: usize, k: usize) -> usize
    requires chunk { chunk < 2 ^ 32 }
    requires line { (k + 1) * 4 ≤ 16384 }
    ensures { result ≡ chunk * 16384 + line_place k }
{
    chunk * CHUNK + (CHUNK - (k + 1) * LINE)
}

/// Writes an entry from a place of a chunk on, and its line as the k-th.
fn write_entry(region: &mut Region, chunk: usize, k: usize, from: usize, entry: &[u8])
    requires chunk { (chunk < 2 ^ 32) × (chunk * 16384 + 16384 ≤ length region.old) }
    requires room { from + length entry.now + (k + 1) * 4 ≤ 16384 }
    ensures { region.new ≡ with_entry region.old chunk k from entry.now }
{
    let at = chunk * CHUNK + from;
    region.write(at, entry);
    region.write(line_at(chunk, k), &line(from, entry.len()));
}

/// The line of an entry.
fn line(from: usize, size: usize) -> [u8; 4]
    requires { (from < 2 ^ 16) × (size < 2 ^ 16) }
    ensures { result ≡ line_of from size }
{
    let from = (from as u16).to_be_bytes();
    let size = (size as u16).to_be_bytes();
    [from[0], from[1], size[0], size[1]]
}

/// Where an entry begins in its chunk and how long it is, from its line.
fn read_line(region: &Region, at: usize) -> (usize, usize)
    requires within { at + 4 ≤ length region.now }
    requires written { (from : ℕ) × (size : ℕ) × (from < 2 ^ 16) × (size < 2 ^ 16)
        × (take 4 (drop at region.now) ≡ map Some (line_of from size)) }
    ensures { (from size : ℕ) → from < 2 ^ 16 → size < 2 ^ 16 →
        take 4 (drop at region.now) ≡ map Some (line_of from size) → result ≡ (from, size) }
{
    let line = region.lend(at, LINE);
    let from = u16::from_be_bytes([line[0], line[1]]);
    let size = u16::from_be_bytes([line[2], line[3]]);
    (from as usize, size as usize)
}
