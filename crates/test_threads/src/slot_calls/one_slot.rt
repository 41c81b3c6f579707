//! Four threads at one slot.

ghost use Rattle.std.specs.Prelude.{◌≡◌};

use crate::slot_calls::gate::Gate;
use crate::slot_calls::wrong::Wrong;
use slots::{OpenedSlots, SlotFault, SlotName, SlotSeat, SlotTable};
use std::alloc::{AllocError, Global};
use std::marker::Brand;
use std::process::Abort;
use std::test::Fail;
use std::thread;
use std::thread::{Threads, map_vec};

const RACERS: usize = 4;

const TRIES: u64 = 1000;

/// Where the first slot of a table is made.
const PLACE: usize = 0;

/// A thread's seat and number, and the greatest position that it confirmed.
#[derive(Drop)]
struct Racer<L: SlotName> {
    seat: SlotSeat<L>,
    number: u64,
    greatest: u64,
}

impl<L: SlotName> Racer<L> {
    /// The greatest position that it confirmed.
    fn run(mut self, table: &SlotTable<L>, gate: &Gate) -> Result<u64, Wrong> {
        gate.pass();
        for round in 0..TRIES {
            self.try_once(table, round)?;
        }
        Ok(self.greatest)
    }

    /// A position that no other racer confirms. Those of even numbers go up, the others down.
    fn position(&self, round: u64) -> u64 {
        let turn = match self.number % 2 {
            0 => round,
            _ => TRIES.saturating_sub(round),
        };
        turn.saturating_mul(RACERS as u64)
            .saturating_add(self.number)
    }

    /// Claims the slot, confirms a position and releases it. In every eighth round others may run while it is held. Whoever is
    /// refused lets others run.
    fn try_once(&mut self, table: &SlotTable<L>, round: u64) -> Result<(), Wrong> {
        let position = self.position(round);
        match table.claim(&mut self.seat, PLACE) {
            Ok(mut lease) => {
                let confirmed = table.confirm(&mut self.seat, &mut lease, position);
                if round % 8 == 0 {
                    thread::yield_now();
                }
                table.release(&mut self.seat, lease);
                self.greatest = self.greatest.max(position);
                if confirmed < self.greatest {
                    return Err(Wrong::WentBack);
                }
                Ok(())
            }
            Err(SlotFault::InUse) => {
                thread::yield_now();
                Ok(())
            }
            Err(fault) => Err(Wrong::Answer(fault)),
        }
    }
}

#[test]
fn four_threads_at_one_slot(rt: HostRuntime) -> Result<(), Fail> {
    let opened = OpenedSlots::new(rt.alloc())?;
    race::<Brand, _>(&rt, rt.alloc(), opened)
}

/// The confirmed position in the end is the greatest that any of them confirmed.
fn race<L: SlotName + Send + Sync, R: Threads + Abort + Sync>(
    rt: &R,
    alloc: Global,
    opened: OpenedSlots,
) -> Result<(), Fail>
    requires name { opened.first.table_id ≡ L.table }
{
    let (table, mut seats) = opened.open::<L>(RACERS + 1)?;
    match seats.pop() {
        Some(mut seat) => race_at(rt, alloc, &table, &mut seat, seats),
        None => Err(Fail::from("a seat")),
    }
}

fn race_at<L: SlotName + Send + Sync, R: Threads + Abort + Sync>(
    rt: &R,
    alloc: Global,
    table: &SlotTable<L>,
    seat: &mut SlotSeat<L>,
    seats: Vec<SlotSeat<L>>,
) -> Result<(), Fail> {
    let place = table.create(seat, 0)?;
    assert!(rt; place == PLACE);
    let greatest = raced(rt, alloc, table, seats)?;
    let lease = table.claim(seat, PLACE)?;
    let confirmed = table.confirmed(seat, &lease);
    table.release(seat, lease);
    assert!(rt; confirmed == greatest);
    Ok(())
}

/// Lets racers with these seats race, and answers the greatest position that any of them confirmed.
fn raced<L: SlotName + Send + Sync, R: Threads + Sync>(
    rt: &R,
    alloc: Global,
    table: &SlotTable<L>,
    seats: Vec<SlotSeat<L>>,
) -> Result<u64, Fail> {
    let gate = Gate::new(RACERS);
    let racers = racers(alloc, seats)?;
    let raced = map_vec(rt, racers, &|racer: Racer<L>| racer.run(table, &gate))?;
    Ok(greatest_of(raced.as_slice())?)
}

fn greatest_of(raced: &[Result<u64, Wrong>]) -> Result<u64, Wrong> {
    let mut greatest = 0;
    for confirmed in raced {
        greatest = (*confirmed)?.max(greatest);
    }
    Ok(greatest)
}

fn racers<L: SlotName>(
    alloc: Global,
    seats: Vec<SlotSeat<L>>,
) -> Result<Vec<Racer<L>>, AllocError> {
    let mut racers = Vec::new(alloc);
    for seat in seats {
        let number = racers.len() as u64;
        racers.push(Racer {
            seat,
            number,
            greatest: 0,
        })?;
    }
    Ok(racers)
}
