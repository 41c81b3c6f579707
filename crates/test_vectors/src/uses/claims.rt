//! Slots that threads share: `slots WORK THREADS TURNS` has each of so many threads claim and release a slot of its own so many
//! times (`slots`), or exchange a word of its own twice as often, where the words stand side by side (`words`) or far apart
//! (`apart`).

ghost use Rattle.std.specs.Prelude.{◌≡◌, ◌≤◌};
ghost use Rattle.slots.specs.declared.table.TheConstants.{MOST_SEATS};

use crate::uses::number;
use anyhow::{Result, bail};
use slots::{MOST_SEATS, OpenedSlots, PLACES, SlotFault, SlotName, SlotSeat, SlotTable};
use std::alloc::{AllocError, Global};
use std::marker::Brand;
use std::sync::atomic::{AtomicU64, Ordering};
use std::thread::{Threads, map_indices, map_vec};

/// Words this far apart never share a line of a processor's cache.
const APART: usize = 16;

pub fn work_on_slots<R: Threads + Sync>(rt: &R, alloc: Global, words: &[String]) -> Result<()> {
    let [work, threads, turns] = words else {
        bail!("slots WORK THREADS TURNS");
    };
    let threads = number(threads)? as usize;
    let turns = number(turns)?;
    match work.as_str() {
        "slots" => on_slots(rt, alloc, threads, turns),
        "words" => on_words(rt, alloc, threads, turns, 1),
        "apart" => on_words(rt, alloc, threads, turns, APART),
        work => bail!("no work is called {work}"),
    }
}

fn on_slots<R: Threads + Sync>(rt: &R, alloc: Global, threads: usize, turns: u32) -> Result<()> {
    if threads == 0 {
        bail!("THREADS is at least 1");
    }
    if threads > MOST_SEATS {
        bail!("THREADS is at most 2048");
    }
    let opened = OpenedSlots::new(alloc)?;
    over_table::<Brand, R>(rt, alloc, opened, threads, turns)
}

/// A thread's seat, and the place of its slot.
#[derive(Drop)]
struct SlotUser<L: SlotName> {
    seat: SlotSeat<L>,
    place: usize,
}

impl<L: SlotName> SlotUser<L> {
    /// Claims and releases the slot.
    fn work(self, table: &SlotTable<L>, turns: u32) -> Result<(), SlotFault> {
        let SlotUser { mut seat, place } = self;
        if place >= PLACES {
            return Err(SlotFault::NoPlace);
        }
        for _ in 0..turns {
            let lease = table.claim(&mut seat, place)?;
            table.release(&mut seat, lease);
        }
        Ok(())
    }
}

/// The table is named by the call.
fn over_table<L: SlotName + Send + Sync, R: Threads + Sync>(
    rt: &R,
    alloc: Global,
    opened: OpenedSlots,
    threads: usize,
    turns: u32,
) -> Result<()>
    requires name { opened.first.table_id ≡ L.table }
    requires threads { 1 ≤ threads }
    requires few { threads ≤ MOST_SEATS }
{
    let (table, seats) = opened.open::<L>(threads)?;
    side_by_side(rt, alloc, &table, seats, turns)
}

/// Each seat has a thread and a slot of its own.
fn side_by_side<L: SlotName + Send + Sync, R: Threads + Sync>(
    rt: &R,
    alloc: Global,
    table: &SlotTable<L>,
    seats: Vec<SlotSeat<L>>,
    turns: u32,
) -> Result<()> {
    let users = users(alloc, table, seats)?;
    let worked = map_vec(rt, users, &|user: SlotUser<L>| user.work(table, turns))?;
    Ok(all(worked.as_slice())?)
}

fn all(worked: &[Result<(), SlotFault>]) -> Result<(), SlotFault> {
    for one in worked {
        (*one)?;
    }
    Ok(())
}

fn users<L: SlotName>(
    alloc: Global,
    table: &SlotTable<L>,
    seats: Vec<SlotSeat<L>>,
) -> Result<Vec<SlotUser<L>>> {
    let mut users = Vec::new(alloc);
    for seat in seats {
        users.push(user_at(table, seat)?)?;
    }
    Ok(users)
}

fn user_at<L: SlotName>(
    table: &SlotTable<L>,
    mut seat: SlotSeat<L>,
) -> Result<SlotUser<L>, SlotFault> {
    let place = table.create(&mut seat, 0)?;
    Ok(SlotUser { seat, place })
}

/// Each thread's word is so many words after the one before it.
fn on_words<R: Threads + Sync>(
    rt: &R,
    alloc: Global,
    threads: usize,
    turns: u32,
    gap: usize,
) -> Result<()> {
    let words = words(alloc, threads.saturating_mul(gap))?;
    let words = words.as_slice();
    let work = |i: usize| exchange(words, i.saturating_mul(gap), turns);
    Ok(map_indices(rt, alloc, threads, &work).map(drop)?)
}

fn words(alloc: Global, count: usize) -> Result<Vec<AtomicU64>, AllocError> {
    let mut words = Vec::new(alloc);
    for _ in 0..count {
        words.push(AtomicU64::new(0))?;
    }
    Ok(words)
}

/// Exchanges the word of this number, twice in each turn.
fn exchange(words: &[AtomicU64], number: usize, turns: u32) {
    let Some(word) = words.get(number) else {
        return;
    };
    for _ in 0..turns {
        word.swap(1, Ordering::SeqCst);
        word.swap(0, Ordering::SeqCst);
    }
}
