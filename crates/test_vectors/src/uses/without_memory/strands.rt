//! An arena: entries pushed, lent and given back.

ghost use Rattle.chgarena.specs.Strands.{IsOf};

use crate::uses::without_memory::answered;
use anyhow::Result;
use chgarena::{Arena, Full, Strand};
use std::alloc::Global;

const CHUNKS: usize = 2;

const ENTRY: [u8; 5] = *b"entry";

pub fn work(alloc: Global, is_called: bool) -> Result<()> {
    let mut arena = Arena::new(alloc, CHUNKS)?;
    let is_right = !is_called || is_used(&mut arena);
    answered(is_right, "an arena's calls answer otherwise")
}

fn is_used(arena: &mut Arena) -> bool {
    let mut strand = arena.strand();
    let is_lent = match arena.push(&mut strand, &ENTRY) {
        Ok(()) => arena.entry(&strand, 0) == ENTRY.as_slice() && is_alone(arena, &strand),
        Err(Full) => false,
    };
    let free = arena.free();
    arena.give_back(strand);
    is_lent && free == 1 && arena.free() == arena.chunks()
}

/// Whether the entry is the strand's only one.
fn is_alone(arena: &Arena, strand: &Strand) -> bool
    requires { IsOf arena.now strand.now }
{
    let mut entries = arena.entries(strand);
    entries.next() == Some(ENTRY.as_slice()) && entries.next().is_none()
}
