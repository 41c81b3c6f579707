//! An arena of chunks: strands of entries, each entry a string of bytes, over one region of raw memory.
//!
//! Only the making of an arena takes memory. An entry costs its length and 4 bytes more, and lies in one chunk.
//!
//! `Arena::push` adds an entry to a strand, `Arena::entry` lends one, and `Arena::give_back` frees a strand's chunks.
//! `memory.rt` and `region.rt` have the raw memory, `links.rt` which chunk comes after which.
//!
//! Read `strand.rt`, `arena.rt`, `entries.rt`. Above, `reorder` uses one contract: what was pushed is what is lent, other
//! strands stay as they were, and a push is refused exactly where no chunk is left.
#![tactic(auto)]

mod arena;
mod entries;
mod full;
mod links;
mod memory;
mod pages;
mod region;
mod strand;

pub use arena::Arena;
pub use entries::Entries;
pub use full::Full;
pub use strand::Strand;
