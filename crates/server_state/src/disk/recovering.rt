//! A log that goes on by the entries of its file.

use crate::disk::keeper_place::KeeperPlace;
use crate::fault::HubFault;
use crate::kept::owned_names::OwnedNames;
use crate::opening::shared::Places;
use segments::{
    Entry, IDENTITY_TAG, KeptSlot, RecordFault, RecoveryFault, SlotsInLog, is_beside,
    read_slot_event, replay_entry,
};
use server::BackendFault;
use shared_log::{LogName, LogReader};
use slots::{LINES, SlotName};
use std::alloc::Global;
use std::sync::Wait;
use txlog::{MAX_LIVE, Publisher};

/// The slots that these entries leave. `Recovery` where one can't be read, or `Memory`.
pub(crate) fn slots_of(alloc: Global, entries: &[Entry]) -> Result<SlotsInLog, HubFault> {
    let mut slots = SlotsInLog::new(alloc);
    let mut number = 0;
    for entry in entries {
        if let Err(fault) = take_slot(alloc, &mut slots, entry.body.as_slice()) {
            drop(slots);
            return Err(of_record(number, fault));
        }
        number = number.saturating_add(1);
    }
    Ok(slots)
}

/// What these bytes tell of a slot, if they do.
fn take_slot(alloc: Global, slots: &mut SlotsInLog, bytes: &[u8]) -> Result<(), RecordFault> {
    if !is_beside(bytes) || bytes.first() == Some(&IDENTITY_TAG) {
        return Ok(());
    }
    let event = read_slot_event(alloc, bytes)?;
    slots.take(event)?;
    Ok(())
}

fn of_record(number: usize, fault: RecordFault) -> HubFault {
    match fault {
        RecordFault::Memory => HubFault::Memory,
        RecordFault::NoRecord => HubFault::Recovery(number, RecoveryFault::Record(fault)),
    }
}

/// Goes on by these entries, and aborts what was in progress. Of the log stays what is needed by slots that are confirmed at `least` or
/// later. `Recovery` where an entry can't be read, or can't come next.
pub(crate) fn replayed<L: LogName, R: Wait>(
    rt: &R,
    alloc: Global,
    publisher: &mut Publisher<L>,
    reader: &mut LogReader<L>,
    entries: &[Entry],
    least: u64,
) -> Result<(usize, u64), HubFault> {
    let mut number = 0;
    for entry in entries {
        make_place(publisher, reader, least);
        if let Err(fault) = replay_entry(rt, alloc, publisher, entry.body.as_slice()) {
            return Err(HubFault::Recovery(number, fault));
        }
        number = number.saturating_add(1);
    }
    let on_disk = (publisher.count(), publisher.end());
    match publisher.abort_all(rt) {
        Ok(()) => Ok(on_disk),
        Err(_) => Err(HubFault::Memory),
    }
}

/// Gives back what no slot needs, where there may be too little room for a transaction that begins.
fn make_place<L: LogName>(publisher: &mut Publisher<L>, reader: &mut LogReader<L>, least: u64) {
    if publisher.room() <= MAX_LIVE {
        let end = publisher.end();
        publisher.give_back_before(reader, least.min(end));
    }
}

/// Makes the slots that a log had, each at its place and as it stood. Streams of them may begin up to where the log ends. `Slots` where
/// there are more than may be.
pub(crate) fn make_slots<L: LogName + SlotName, R: Wait>(
    rt: &R,
    places: &mut Places<L>,
    mut slots: SlotsInLog,
    end: u64,
) -> Result<(), HubFault> {
    for _ in 0..LINES {
        let Some(slot) = slots.pop() else {
            return Ok(());
        };
        if let Err(fault) = make_slot(rt, places, slot, end) {
            drop(slots);
            return Err(fault);
        }
    }
    if slots.pop().is_some() {
        return Err(HubFault::Slots(BackendFault::NoSlotPlace));
    }
    Ok(())
}

fn make_slot<L: LogName + SlotName, R: Wait>(
    rt: &R,
    places: &mut Places<L>,
    slot: KeptSlot,
    end: u64,
) -> Result<(), HubFault> {
    let KeptSlot {
        name,
        owner,
        confirmed,
        is_lost,
    } = slot;
    let made = places
        .names
        .create(&places.table, name.as_str(), owner, confirmed);
    if let Err(fault) = made {
        drop(name);
        return Err(HubFault::Slots(fault));
    }
    let place = places.names.place_of(name.as_str()).unwrap_or(usize::MAX);
    if let Some(monitor) = places.monitors.get(place % LINES) {
        monitor.open(rt, Some(name), confirmed);
        monitor.reach(rt, end);
        if is_lost {
            monitor.give_up(rt);
        }
    }
    Ok(())
}
