//! Entries in an arena beside the same bytes in a buffer: `arena CHUNKS LENGTH TURNS push|copy` fills so many chunks with entries of
//! so many bytes, and gives them back (`push`), or copies as many bytes (`copy`), in each turn.

ghost use Rattle.std.specs.Prelude.{◌≤◌, length};

use crate::uses::number;
use anyhow::{Result, bail};
use chgarena::{Arena, Full};
use std::alloc::Global;

/// The bytes of a chunk, and what an entry takes beside its own.
const CHUNK: usize = 16384;

const LINE: usize = 4;

pub fn work_on_arena(alloc: Global, words: &[String]) -> Result<()> {
    let [chunks, len, turns, work] = words else {
        bail!("arena CHUNKS LENGTH TURNS push|copy");
    };
    let (chunks, len) = (number(chunks)?, number(len)? as usize);
    if len > CHUNK - LINE {
        bail!("an entry has at most 16380 bytes");
    }
    let entry = Vec::from_elem(alloc, 7, len)?;
    work_on_entry(alloc, chunks, entry.as_slice(), turns, work.as_str())
}

fn work_on_entry(alloc: Global, chunks: u32, entry: &[u8], turns: &String, work: &str) -> Result<()>
    requires { length entry.now ≤ 16380 }
{
    let count = (chunks as usize).saturating_mul(CHUNK / (entry.len() + LINE));
    match work {
        "push" => push_often(alloc, chunks, entry, count, turns),
        "copy" => copy_often(alloc, entry, count, number(turns)?),
        _ => bail!("no work is called {work}"),
    }
}

fn push_often(alloc: Global, chunks: u32, entry: &[u8], count: usize, turns: &String) -> Result<()>
    requires { length entry.now ≤ 16380 }
{
    let mut arena = Arena::new(alloc, chunks as usize)?;
    fill_often(&mut arena, entry, count, turns)
}

fn fill_often(arena: &mut Arena, entry: &[u8], count: usize, turns: &String) -> Result<()>
    requires { length entry.now ≤ 16380 }
{
    for _ in 0..number(turns)? {
        fill(arena, entry, count);
    }
    Ok(())
}

/// Pushes so many entries to a strand, as far as there is room, and gives it back.
fn fill(arena: &mut Arena, entry: &[u8], count: usize)
    requires { length entry.now ≤ 16380 }
{
    let mut strand = arena.strand();
    for _ in 0..count {
        match arena.push(&mut strand, entry) {
            Ok(()) => {}
            Err(Full) => break,
        }
    }
    arena.give_back(strand);
}

/// Copies the bytes so many times, one after the other.
fn copy_often(alloc: Global, entry: &[u8], count: usize, turns: u32) -> Result<()> {
    let mut bytes = Vec::with_capacity(alloc, count.saturating_mul(entry.len()))?;
    for _ in 0..turns {
        bytes.clear();
        for _ in 0..count {
            bytes.extend_from_slice(entry)?;
        }
    }
    Ok(())
}
