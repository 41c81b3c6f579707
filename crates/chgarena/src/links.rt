//! Which chunks belong to which strand, and which are free.

ghost use Rattle.std.specs.Prelude.{◌≡◌, ℕ, ◌<◌, ◌^◌, IfOk, MatchOption, length, replicate};
ghost use Rattle.chgarena.specs.Books.{at};
ghost use Rattle.chgarena.specs.Links.{IsLinks, IsPopped, IsReleased, books, books_with_chunk, books_with_strand};

use std::alloc::{AllocError, Global};

/// The chunks of each strand, which goes by its first chunk. A number that is not below `chunks` stands for none.
#[derive(Drop)]
pub(crate) struct Links {
    chunks: usize,
    owner: Vec<usize>,
    next: Vec<usize>,
    rank: Vec<usize>,
    last: Vec<usize>,
    free: Vec<usize>,
}

impl Links {
    /// All chunks free, and no strand.
    pub(crate) fn new(alloc: Global, chunks: usize) -> Result<Self, AllocError>
        requires { chunks < 2 ^ 32 }
        ensures links { IfOk result IsLinks }
        ensures none { IfOk result
            (λ l. ((books l).chunks ≡ chunks) × ((books l).last ≡ replicate chunks chunks)) }
    {
        let mut free = Vec::with_capacity(alloc, chunks)?;
        for chunk in 0..chunks {
            free.push_reserved(chunk);
        }
        Ok(Links {
            chunks,
            owner: Vec::from_elem(alloc, chunks, chunks)?,
            next: Vec::from_elem(alloc, chunks, chunks)?,
            rank: Vec::from_elem(alloc, 0, chunks)?,
            last: Vec::from_elem(alloc, chunks, chunks)?,
            free,
        })
    }

    /// How many chunks are free.
    pub(crate) fn free(&self) -> usize
        ensures { result ≡ length (books self.now).free }
    {
        self.free.len()
    }

    /// How many chunks there are.
    pub(crate) fn chunks(&self) -> usize
        ensures { result ≡ (books self.now).chunks }
    {
        self.chunks
    }

    /// The last chunk of a strand.
    pub(crate) fn last(&self, head: usize) -> usize
        requires { IsLinks self.now × (head < (books self.now).chunks) }
        ensures { result ≡ at (books self.now).last head }
    {
        self.last[head]
    }

    /// How many chunks stand before this one in its strand.
    pub(crate) fn rank(&self, chunk: usize) -> usize
        requires { IsLinks self.now × (chunk < (books self.now).chunks) }
        ensures { result ≡ at (books self.now).rank chunk }
    {
        self.rank[chunk]
    }

    /// The strand that has a chunk.
    pub(crate) fn owner(&self, chunk: usize) -> usize
        requires { IsLinks self.now × (chunk < (books self.now).chunks) }
        ensures { result ≡ at (books self.now).owner chunk }
    {
        self.owner[chunk]
    }

    /// The chunk after this one in its strand.
    pub(crate) fn next(&self, chunk: usize) -> usize
        requires { IsLinks self.now × (chunk < (books self.now).chunks) }
        ensures { result ≡ at (books self.now).next chunk }
    {
        self.next[chunk]
    }

    /// Makes a free chunk a strand of its own, unless none is free.
    pub(crate) fn begin(&mut self) -> Option<usize>
        requires { IsLinks self.old }
        ensures links { IsLinks self.new }
        ensures chunk { MatchOption result
            ((books self.new ≡ books self.old) × (length (books self.old).free ≡ 0))
            (λ c. IsPopped (books self.old) c
            × (books self.new ≡ books_with_strand (books self.old) c)) }
    {
        let chunk = self.free.pop()?;
        self.owner[chunk] = chunk;
        self.rank[chunk] = 0;
        self.last[chunk] = chunk;
        Some(chunk)
    }

    /// Makes a free chunk the last of a strand, unless none is free.
    pub(crate) fn grow(&mut self, head: usize) -> Option<usize>
        requires links { IsLinks self.old }
        requires strand { (head < (books self.old).chunks)
            × (at (books self.old).last head < (books self.old).chunks) }
        ensures links { IsLinks self.new }
        ensures chunk { MatchOption result
            ((books self.new ≡ books self.old) × (length (books self.old).free ≡ 0))
            (λ c. IsPopped (books self.old) c
            × (books self.new ≡ books_with_chunk (books self.old) head c)) }
    {
        let chunk = self.free.pop()?;
        let last = self.last[head];
        let rank = self.rank[last];
        self.owner[chunk] = head;
        self.rank[chunk] = rank + 1;
        self.next[last] = chunk;
        self.last[head] = chunk;
        Some(chunk)
    }

    /// Makes the chunks of a strand free.
    pub(crate) fn release(&mut self, head: usize)
        requires links { IsLinks self.old }
        requires strand { (head < (books self.old).chunks)
            × (at (books self.old).last head < (books self.old).chunks) }
        ensures links { IsLinks self.new }
        ensures released { IsReleased (books self.old) head (books self.new) }
    {
        let mut left = self.rank[self.last[head]] + 1;
        self.last[head] = self.chunks;
        let mut chunk = head;
        while left > 0 {
            self.owner[chunk] = self.chunks;
            self.free.push_reserved(chunk);
            chunk = self.next[chunk];
            left -= 1;
        }
    }
}
