//! What connections share of a hub's log and slots, as it is opened.

ghost use Rattle.std.specs.Prelude.{◌≡◌};

use crate::disk::keeper_place::KeeperPlace;
use crate::disk::recovering::{make_slots, replayed, slots_of};
use crate::fault::HubFault;
use crate::kept::owned_names::OwnedNames;
use crate::kept::pool::ReaderPool;
use crate::opening::at_once::AtOnce;
use connections::{Latch, Names, SlotMonitor};
use segments::{Entry, SlotsInLog};
use shared_log::{LogName, LogReader};
use slots::{OpenedSlots, SlotName, SlotSeat, SlotTable};
use std::alloc::{AllocError, Global};
use std::sync::Wait;
use txlog::{Publisher, PublisherParts};

/// What of a hub hangs on its slots alone.
#[derive(Drop)]
pub(crate) struct Places<L: SlotName> {
    pub table: SlotTable<L>,
    pub names: OwnedNames<L>,
    pub latches: Vec<Latch>,
    pub monitors: Vec<SlotMonitor>,
}

/// What of a hub connections share: its slots, its log, and who reads it.
pub(crate) struct Shared<L: LogName + SlotName> {
    pub places: Places<L>,
    pub publisher: Publisher<L>,
    pub pool: ReaderPool<L>,
    pub counter: LogReader<L>,
    /// From where on the log is put on its disk, where it is kept on one.
    pub kept: Option<KeeperPlace<L>>,
}

impl<L: LogName + SlotName> Shared<L> {
    pub fn open<R: Wait>(
        rt: &R,
        alloc: Global,
        log: PublisherParts,
        slots: OpenedSlots,
        at_once: AtOnce,
        entries: Option<Vec<Entry>>,
    ) -> Result<Self, HubFault>
        requires log { log.history.seen.book ≡ L.book }
        requires slots { slots.first.table_id ≡ L.table }
    {
        let (places, seats) = match places_of(alloc, slots, at_once) {
            Ok(made) => made,
            Err(fault) => {
                drop(log);
                drop(entries);
                return Err(fault);
            }
        };
        match log_of(rt, alloc, log, seats, at_once, entries) {
            Ok(
                Log {
                    publisher,
                    pool,
                    counter,
                    kept,
                    slots,
                },
            ) => {
                let shared = Shared {
                    places,
                    publisher,
                    pool,
                    counter,
                    kept,
                };
                match slots {
                    Some(slots) => shared.with_slots(rt, slots),
                    None => Ok(shared),
                }
            }
            Err(fault) => {
                drop(places);
                Err(fault)
            }
        }
    }

    /// The same with the slots that its log had.
    fn with_slots<R: Wait>(mut self, rt: &R, slots: SlotsInLog) -> Result<Self, HubFault> {
        let end = self.publisher.end();
        match make_slots(rt, &mut self.places, slots, end) {
            Ok(()) => Ok(self),
            Err(fault) => {
                let Shared {
                    places,
                    publisher,
                    pool,
                    counter,
                    kept,
                } = self;
                drop(places);
                drop(pool);
                drop(counter);
                drop(kept);
                publisher.close(rt);
                Err(fault)
            }
        }
    }
}

/// A log, its readers, and the slots that it had.
struct Log<L: LogName + SlotName> {
    publisher: Publisher<L>,
    pool: ReaderPool<L>,
    counter: LogReader<L>,
    kept: Option<KeeperPlace<L>>,
    slots: Option<SlotsInLog>,
}

/// A log that is empty, or goes on by these entries.
fn log_of<L: LogName + SlotName, R: Wait>(
    rt: &R,
    alloc: Global,
    log: PublisherParts,
    seats: Vec<SlotSeat<L>>,
    at_once: AtOnce,
    entries: Option<Vec<Entry>>,
) -> Result<Log<L>, HubFault>
    requires { log.history.seen.book ≡ L.book }
{
    let Some(entries) = entries else {
        let log = log.for_readers(at_once.streams + 1);
        let (publisher, pool, counter) = published(rt, alloc, log, seats)?;
        return Ok(Log {
            publisher,
            pool,
            counter,
            kept: None,
            slots: None,
        });
    };
    let log = log.for_readers(at_once.streams + 2);
    recovered(rt, alloc, log, seats, entries.as_slice())
}

/// A log that goes on by these entries. Its last reader keeps it.
fn recovered<L: LogName + SlotName, R: Wait>(
    rt: &R,
    alloc: Global,
    log: PublisherParts,
    seats: Vec<SlotSeat<L>>,
    entries: &[Entry],
) -> Result<Log<L>, HubFault>
    requires { log.history.seen.book ≡ L.book }
{
    let slots = match slots_of(alloc, entries) {
        Ok(slots) => slots,
        Err(fault) => {
            drop(log);
            drop(seats);
            return Err(fault);
        }
    };
    let Ok((mut publisher, mut readers)) = Publisher::<L>::open(rt, log) else {
        drop(slots);
        drop(seats);
        return Err(HubFault::Memory);
    };
    let least = slots.least_confirmed().unwrap_or(u64::MAX);
    let gone_on = gone_on(rt, alloc, &mut publisher, &mut readers, entries, least);
    match (gone_on, parted(alloc, readers, seats)) {
        (Ok(kept), Some((pool, counter))) => Ok(Log {
            publisher,
            pool,
            counter,
            kept: Some(kept),
            slots: Some(slots),
        }),
        (gone_on, parts) => {
            drop(slots);
            drop(parts);
            publisher.close(rt);
            Err(fault_of(gone_on))
        }
    }
}

fn fault_of<L: LogName>(gone_on: Result<KeeperPlace<L>, HubFault>) -> HubFault {
    match gone_on {
        Ok(kept) => {
            drop(kept);
            HubFault::Memory
        }
        Err(fault) => fault,
    }
}

/// Has a log go on by these entries, and answers from where on the last of these readers keeps it.
fn gone_on<L: LogName, R: Wait>(
    rt: &R,
    alloc: Global,
    publisher: &mut Publisher<L>,
    readers: &mut Vec<LogReader<L>>,
    entries: &[Entry],
    least: u64,
) -> Result<KeeperPlace<L>, HubFault> {
    let Some(mut reader) = readers.pop() else {
        return Err(HubFault::Memory);
    };
    let (count, end) = replayed(rt, alloc, publisher, &mut reader, entries, least)?;
    Ok(KeeperPlace { reader, count, end })
}

/// The places of so many slots at once, and a seat for each stream that may run.
fn places_of<L: SlotName>(
    alloc: Global,
    slots: OpenedSlots,
    at_once: AtOnce,
) -> Result<(Places<L>, Vec<SlotSeat<L>>), HubFault>
    requires { slots.first.table_id ≡ L.table }
{
    let Ok((latches, monitors)) = latches_and_monitors(alloc, at_once) else {
        drop(slots);
        return Err(HubFault::Memory);
    };
    match seats_of(alloc, slots, at_once) {
        Some((table, names, seats)) => {
            let places = Places {
                table,
                names,
                latches,
                monitors,
            };
            Ok((places, seats))
        }
        None => {
            drop(latches);
            drop(monitors);
            Err(HubFault::Memory)
        }
    }
}

fn latches_and_monitors(
    alloc: Global,
    at_once: AtOnce,
) -> Result<(Vec<Latch>, Vec<SlotMonitor>), AllocError> {
    let latches = latches_of(alloc, at_once.streams)?;
    match monitors_of(alloc, at_once.slots) {
        Ok(monitors) => Ok((latches, monitors)),
        Err(fault) => {
            drop(latches);
            Err(fault)
        }
    }
}

/// The table of slots, the names with the seat that makes and drops slots, and a seat for each stream that may run. None: there is no
/// memory for them.
fn seats_of<L: SlotName>(
    alloc: Global,
    slots: OpenedSlots,
    at_once: AtOnce,
) -> Option<(SlotTable<L>, OwnedNames<L>, Vec<SlotSeat<L>>)>
    requires { slots.first.table_id ≡ L.table }
{
    let Ok((table, mut seats)) = slots.open::<L>(at_once.streams + 1) else {
        return None;
    };
    match names_of(alloc, &mut seats, at_once.slots) {
        Some(names) => Some((table, names, seats)),
        None => {
            drop(table);
            drop(seats);
            None
        }
    }
}

/// The names of at most so many slots, with the last seat.
fn names_of<L: SlotName>(
    alloc: Global,
    seats: &mut Vec<SlotSeat<L>>,
    slots: usize,
) -> Option<OwnedNames<L>> {
    let seat = seats.pop()?;
    let names = Names::new(alloc, seat, slots).ok()?;
    Some(OwnedNames::of(alloc, names))
}

fn latches_of(alloc: Global, streams: usize) -> Result<Vec<Latch>, AllocError> {
    let mut latches = Vec::with_capacity(alloc, streams)?;
    for _ in 0..streams {
        latches.push(Latch::new())?;
    }
    Ok(latches)
}

fn monitors_of(alloc: Global, slots: usize) -> Result<Vec<SlotMonitor>, AllocError> {
    let mut monitors = Vec::with_capacity(alloc, slots)?;
    for _ in 0..slots {
        monitors.push(SlotMonitor::new())?;
    }
    Ok(monitors)
}

/// The publisher, its readers with a seat each, and one reader without.
fn published<L: LogName + SlotName, R: Wait>(
    rt: &R,
    alloc: Global,
    log: PublisherParts,
    seats: Vec<SlotSeat<L>>,
) -> Result<(Publisher<L>, ReaderPool<L>, LogReader<L>), HubFault>
    requires { log.history.seen.book ≡ L.book }
{
    match Publisher::<L>::open(rt, log) {
        Ok((publisher, readers)) => match parted(alloc, readers, seats) {
            Some((pool, counter)) => Ok((publisher, pool, counter)),
            None => {
                publisher.close(rt);
                Err(HubFault::Memory)
            }
        },
        Err(_) => Err(HubFault::Memory),
    }
}

fn parted<L: LogName + SlotName>(
    alloc: Global,
    mut readers: Vec<LogReader<L>>,
    seats: Vec<SlotSeat<L>>,
) -> Option<(ReaderPool<L>, LogReader<L>)> {
    let counter = readers.pop()?;
    match ReaderPool::of(alloc, readers, seats) {
        Ok(pool) => Some((pool, counter)),
        Err(_) => None,
    }
}
