//! The entries of a strand, one after another.

ghost use Rattle.std.specs.Prelude.{◌≡◌, ◌<◌, [], length};
ghost use Rattle.std.specs.Iterator.{YieldsFirstRef, item_count};
ghost use Rattle.chgarena.specs.Books.{at, chunks_of};
ghost use Rattle.chgarena.specs.Joined.{joined_entries};
ghost use Rattle.chgarena.specs.Links.{IsLinks, books};

use crate::links::Links;
use crate::pages::Pages;
use std::marker::Model;

/// The entries of a strand that are still to come. Contracts see them as a list.
#[derive(Drop)]
pub struct Entries<'a> {
    links: &'a Links,
    pages: &'a Pages,
    /// The chunk of the next entry, and how many chunks there are from it on.
    chunk: usize,
    left: usize,
    /// How many entries of the chunk were given.
    given: usize,
}

impl<'a> Model for Entries<'a> {
    ghost use Rattle.std.specs.Prelude.{ℕ, List, drop};
    ghost use Rattle.chgarena.specs.Entries.{IsReading, from_on};
    ghost use Rattle.chgarena.specs.Links.{books};

    ghost Value = { List (List ℕ) };

    ghost view = { λ e. drop e.given
        (from_on (books e.links.now).next e.pages.now e.left e.chunk) };

    ghost invariant = { λ e. IsReading e.links.now e.pages.now e.chunk e.left e.given };
}

impl<'a> Entries<'a> {
    /// Those of a strand that has chunks.
    pub(crate) fn from(links: &'a Links, pages: &'a Pages, head: usize) -> Self
        requires links { IsLinks links.now }
        requires strand { (head < (books links.now).chunks)
            × (at (books links.now).last head < (books links.now).chunks) }
        requires pages { length pages.now ≡ (books links.now).chunks }
        ensures { result ≡ joined_entries pages.now (chunks_of (books links.now) head) }
    {
        let left = links.rank(links.last(head)) + 1;
        Entries {
            links,
            pages,
            chunk: head,
            left,
            given: 0,
        }
    }

    /// Those of a strand that has no chunk.
    pub(crate) fn none(links: &'a Links, pages: &'a Pages) -> Self
        requires links { IsLinks links.now }
        requires pages { length pages.now ≡ (books links.now).chunks }
        ensures { result ≡ [] }
    {
        Entries {
            links,
            pages,
            chunk: 0,
            left: 0,
            given: 0,
        }
    }

    /// The chunk of the entry that was given last. Before the first entry and after the end it may be any number.
    pub fn chunk(&self) -> usize {
        self.chunk
    }
}

impl<'a> Iterator for Entries<'a> {
    type Item = &'a [u8];

    ghost next_gives = { YieldsFirstRef (λ e. e) };

    ghost remaining = { item_count (λ e. e) };

    fn next(&mut self) -> Option<&'a [u8]> {
        while self.left > 0 {
            if self.given < self.pages.count(self.chunk) {
                let entry = self.pages.entry(self.chunk, self.given);
                self.given += 1;
                return Some(entry);
            }
            self.chunk = self.links.next(self.chunk);
            self.left -= 1;
            self.given = 0;
        }
        None
    }
}
