//! Strands of entries, over the chunks of one region.

ghost use Rattle.std.specs.Prelude.{◌≡◌, ◌↔◌, ℕ, ◌+◌, ◌<◌, ◌≤◌, ◌^◌, ◌++◌, ◌∷◌, [], None, Some, false, get_or, length, IfOk, IfSome, IsErr, MatchOption, MatchBool, OnErr, OnOk, replicate, slice_set};
ghost use Rattle.chgarena.specs.Books.{at, chunks_of};
ghost use Rattle.chgarena.specs.Joined.{AreCounted, joined_entries};
ghost use Rattle.chgarena.specs.Links.{IsLinks, IsPopped, books, books_with_chunk, books_with_strand};
ghost use Rattle.chgarena.specs.Pages.{bytes_taken};

use crate::entries::Entries;
use crate::full::Full;
use crate::links::Links;
use crate::pages::Pages;
use crate::strand::Strand;
use std::alloc::{AllocError, Global};
use std::marker::Model;

/// Strands of entries. Contracts see, for each chunk, the entries of the strand whose first chunk it is.
#[derive(Drop)]
pub struct Arena {
    links: Links,
    pages: Pages,
    /// For each chunk of a strand, how many of the strand's entries stand before it.
    before: Vec<usize>,
}

impl Model for Arena {
    ghost use Rattle.chgarena.specs.Strands.{Strands};
    ghost use Rattle.chgarena.specs.Joined.{IsArena, strands};
    ghost use Rattle.chgarena.specs.Links.{books};

    ghost Value = { Strands };

    ghost view = { λ a. strands (books a.links) a.pages };

    ghost invariant = { λ a. IsArena a.links a.pages a.before.items };
}

impl Arena {
    ghost use Rattle.chgarena.specs.Strands.{IsOf, IsPushed, arena_without, entries_of, fills, has_room};

    /// An arena of this many chunks, each 16,384 bytes, without strands. `AllocError` where memory for them is refused; no
    /// other call takes memory.
    pub fn new(alloc: Global, chunks: usize) -> Result<Self, AllocError>
        requires { chunks < 2 ^ 32 }
        ensures { IfOk result (λ a. a ≡ replicate chunks None) }
    {
        Ok(Arena {
            links: Links::new(alloc, chunks)?,
            pages: Pages::new(alloc, chunks)?,
            before: Vec::from_elem(alloc, 0, chunks)?,
        })
    }

    /// How many chunks there are.
    pub fn chunks(&self) -> usize
        ensures { result ≡ length self.now }
    {
        self.links.chunks()
    }

    /// How many entries a strand of this arena has.
    pub fn count(&self, strand: &Strand) -> usize
        requires { IsOf self.now strand.now }
        ensures { result ≡ length (entries_of self.now strand.now) }
    {
        match strand.head {
            Some(head) => {
                let last = self.links.last(head);
                self.before[last] + self.pages.count(last)
            }
            None => 0,
        }
    }

    /// How many chunks no strand has.
    pub fn free(&self) -> usize
        ensures { result + fills self.now ≡ length self.now }
    {
        self.links.free()
    }

    /// Whether the last chunk of a strand of this arena has room for an entry of this length.
    pub fn has_room_for(&self, strand: &Strand, length: usize) -> bool
        requires of { IsOf self.now strand.now }
        requires fits { length ≤ 16380 }
        ensures { result ≡ has_room (entries_of self.now strand.now) length }
    {
        match strand.head {
            Some(head) => {
                let left = self.pages.left(self.links.last(head));
                left >= length + 4
            }
            None => false,
        }
    }

    /// A strand without entries, which has no chunk yet.
    pub fn strand(&self) -> Strand
        ensures { result ≡ None }
    {
        Strand { head: None }
    }

    /// Adds an entry to a strand of this arena: to its last chunk if that has room, else to a free chunk. `Full` where there is
    /// neither; nothing changes then.
    pub fn push(&mut self, strand: &mut Strand, entry: &[u8]) -> Result<(), Full>
        requires of { IsOf self.old strand.old }
        requires fits { length entry.now ≤ 16380 }
        ensures full { IsErr result
            ↔ ((has_room (entries_of self.old strand.old) (length entry.now) ≡ false)
            × (fills self.old ≡ length self.old)) }
        ensures err { OnErr result ((self.new ≡ self.old) × (strand.new ≡ strand.old)) }
        ensures ok { OnOk result (IsPushed self.old strand.old entry.now self.new strand.new) }
    {
        match strand.head {
            Some(head) => {
                if self.add(head, entry) {
                    Ok(())
                } else {
                    Err(Full)
                }
            }
            None => match self.begin(entry) {
                Some(head) => {
                    strand.head = Some(head);
                    Ok(())
                }
                None => Err(Full),
            },
        }
    }

    /// Begins a strand with this entry, and answers its first chunk, unless no chunk is free.
    fn begin(&mut self, entry: &[u8]) -> Option<usize>
        requires { length entry.now ≤ 16380 }
        ensures { MatchOption result ((self.new ≡ self.old) × (fills self.old ≡ length self.old))
            (λ h. (h < length self.old) × (get_or self.old h None ≡ None)
            × (self.new ≡ slice_set self.old h (Some (entry.now ∷ [])))
            × (fills self.old < length self.old)) }
    {
        let chunk = push_first(&mut self.links, &mut self.pages, entry)?;
        self.before[chunk] = 0;
        Some(chunk)
    }

    /// Adds an entry to a strand that has chunks, unless its last one has no room and no chunk is free.
    fn add(&mut self, head: usize, entry: &[u8]) -> bool
        requires of { IsOf self.old (Some head) }
        requires fits { length entry.now ≤ 16380 }
        ensures { MatchBool result
            ((self.new
            ≡ slice_set self.old head
            (Some (entries_of self.old (Some head) ++ entry.now ∷ [])))
            × (has_room (entries_of self.old (Some head)) (length entry.now) ≡ false →
            fills self.old < length self.old))
            ((self.new ≡ self.old)
            × (has_room (entries_of self.old (Some head)) (length entry.now) ≡ false)
            × (fills self.old ≡ length self.old)) }
    {
        let last = self.links.last(head);
        if self.pages.left(last) >= entry.len() + 4 {
            self.pages.append(last, entry);
            return true;
        }
        let before = self.before[last] + self.pages.count(last);
        match push_after(&mut self.links, &mut self.pages, head, entry) {
            Some(chunk) => {
                self.before[chunk] = before;
                true
            }
            None => false,
        }
    }

    /// The k-th entry of a strand of this arena, in the order of pushing.
    pub fn entry(&self, strand: &Strand, k: usize) -> &[u8]
        requires of { IsOf self.now strand.now }
        requires entry { k < length (entries_of self.now strand.now) }
        ensures { result.now ≡ get_or (entries_of self.now strand.now) k [] }
    {
        let mut near = self.links.chunks();
        self.entry_near(strand, k, &mut near)
    }

    /// The k-th entry of a strand of this arena, as `entry` has it. It is found at once where it lies in the chunk `near` or in the one
    /// after it, and else by going over the strand's chunks. The chunk in which it lies is the next `near`.
    pub fn entry_near<'a>(&'a self, strand: &Strand, k: usize, near: &mut usize) -> &'a [u8]
        requires of { IsOf self.now strand.now }
        requires entry { k < length (entries_of self.now strand.now) }
        ensures { result.now ≡ get_or (entries_of self.now strand.now) k [] }
    {
        match strand.head {
            Some(head) => {
                let (chunk, k) = find_near(&self.links, &self.pages, &self.before, head, k, *near);
                *near = chunk;
                self.pages.entry(chunk, k)
            }
            None => unreachable!(),
        }
    }

    /// The entries of a strand of this arena, in the order of pushing, lent without copying.
    pub fn entries<'a>(&'a self, strand: &Strand) -> Entries<'a>
        requires { IsOf self.now strand.now }
        ensures { result ≡ entries_of self.now strand.now }
    {
        match strand.head {
            Some(head) => Entries::from(&self.links, &self.pages, head),
            None => Entries::none(&self.links, &self.pages),
        }
    }

    /// Makes the chunks of a strand of this arena free.
    pub fn give_back(&mut self, strand: Strand)
        requires { IsOf self.old strand }
        ensures { self.new ≡ arena_without self.old strand }
    {
        let Strand { head } = strand;
        if let Some(head) = head {
            self.links.release(head);
        }
    }
}

/// Makes the entry the only one of a chunk.
fn start(pages: &mut Pages, chunk: usize, entry: &[u8])
    requires chunk { chunk < length pages.old }
    requires fits { length entry.now ≤ 16380 }
    ensures { pages.new ≡ slice_set pages.old chunk (entry.now ∷ []) }
{
    pages.clear(chunk);
    pages.append(chunk, entry)
}

/// Begins a strand with this entry, and answers its first chunk, unless no chunk is free.
fn push_first(links: &mut Links, pages: &mut Pages, entry: &[u8]) -> Option<usize>
    requires links { IsLinks links.old }
    requires pages { length pages.old ≡ (books links.old).chunks }
    requires fits { length entry.now ≤ 16380 }
    ensures links { IsLinks links.new }
    ensures done { MatchOption result
        ((books links.new ≡ books links.old) × (pages.new ≡ pages.old)
        × (length (books links.old).free ≡ 0))
        (λ c. IsPopped (books links.old) c
        × (books links.new ≡ books_with_strand (books links.old) c)
        × (pages.new ≡ slice_set pages.old c (entry.now ∷ []))) }
{
    let chunk = links.begin()?;
    start(pages, chunk, entry);
    Some(chunk)
}

/// Makes a free chunk with this entry the last of a strand, unless no chunk is free.
fn push_after(links: &mut Links, pages: &mut Pages, head: usize, entry: &[u8]) -> Option<usize>
    requires links { IsLinks links.old }
    requires strand { (head < (books links.old).chunks)
        × (at (books links.old).last head < (books links.old).chunks) }
    requires pages { length pages.old ≡ (books links.old).chunks }
    requires fits { length entry.now ≤ 16380 }
    ensures links { IsLinks links.new }
    ensures done { MatchOption result
        ((books links.new ≡ books links.old) × (pages.new ≡ pages.old)
        × (length (books links.old).free ≡ 0))
        (λ c. IsPopped (books links.old) c
        × (books links.new ≡ books_with_chunk (books links.old) head c)
        × (pages.new ≡ slice_set pages.old c (entry.now ∷ []))) }
{
    let chunk = links.grow(head)?;
    start(pages, chunk, entry);
    Some(chunk)
}

/// The chunk that has the k-th entry of a strand, and which of its entries that is, without going over chunks where it is the chunk `near`
/// or the one after it.
fn find_near(
    links: &Links,
    pages: &Pages,
    before: &[usize],
    head: usize,
    k: usize,
    near: usize,
) -> (usize, usize)
    requires links { IsLinks links.now }
    requires strand { (head < (books links.now).chunks)
        × (at (books links.now).last head < (books links.now).chunks) }
    requires pages { length pages.now ≡ (books links.now).chunks }
    requires before { (length before.now ≡ (books links.now).chunks)
        × AreCounted pages.now before.now 0 (chunks_of (books links.now) head) }
    requires entry { k < length (joined_entries pages.now (chunks_of (books links.now) head)) }
    ensures within { (result.0 < length pages.now)
        × (result.1 < length (get_or pages.now result.0 [])) }
    ensures entry { get_or (get_or pages.now result.0 []) result.1 []
        ≡ get_or (joined_entries pages.now (chunks_of (books links.now) head)) k [] }
{
    if let Some(place) = place_in(links, pages, before, head, k, near) {
        return (near, place);
    }
    if near < links.chunks() {
        let next = links.next(near);
        if let Some(place) = place_in(links, pages, before, head, k, next) {
            return (next, place);
        }
    }
    find(links, pages, head, k)
}

/// Which of the entries of the chunk is the k-th entry of a strand, if it lies there.
fn place_in(
    links: &Links,
    pages: &Pages,
    before: &[usize],
    head: usize,
    k: usize,
    chunk: usize,
) -> Option<usize>
    requires links { IsLinks links.now }
    requires strand { (head < (books links.now).chunks)
        × (at (books links.now).last head < (books links.now).chunks) }
    requires pages { length pages.now ≡ (books links.now).chunks }
    requires before { (length before.now ≡ (books links.now).chunks)
        × AreCounted pages.now before.now 0 (chunks_of (books links.now) head) }
    ensures within { IfSome result (λ place. (chunk < length pages.now)
        × (place < length (get_or pages.now chunk []))) }
    ensures entry { IfSome result (λ place. get_or (get_or pages.now chunk []) place []
        ≡ get_or (joined_entries pages.now (chunks_of (books links.now) head)) k []) }
{
    if chunk >= links.chunks() || links.owner(chunk) != head {
        return None;
    }
    let first = before[chunk];
    if first > k || k - first >= pages.count(chunk) {
        return None;
    }
    Some(k - first)
}

/// The chunk that has the k-th entry of a strand, and which of its entries that is.
fn find(links: &Links, pages: &Pages, head: usize, k: usize) -> (usize, usize)
    requires links { IsLinks links.now }
    requires strand { (head < (books links.now).chunks)
        × (at (books links.now).last head < (books links.now).chunks) }
    requires pages { length pages.now ≡ (books links.now).chunks }
    requires entry { k < length (joined_entries pages.now (chunks_of (books links.now) head)) }
    ensures within { (result.0 < length pages.now)
        × (result.1 < length (get_or pages.now result.0 [])) }
    ensures entry { get_or (get_or pages.now result.0 []) result.1 []
        ≡ get_or (joined_entries pages.now (chunks_of (books links.now) head)) k [] }
{
    let mut chunk = head;
    let mut rest = k;
    while rest >= pages.count(chunk) {
        rest -= pages.count(chunk);
        chunk = links.next(chunk);
    }
    (chunk, rest)
}
