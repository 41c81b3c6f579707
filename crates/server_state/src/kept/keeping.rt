//! Slots that are made, found and dropped, and what streams take and give back.

ghost use Rattle.std.specs.Prelude.{◌<◌, IfSome};
ghost use Rattle.slots.specs.declared.table.TheConstants.{END_OF_PLACES};

use crate::kept::pool::ReaderSeat;
use crate::server_state::ServerState;
use connections::{SlotMonitor, has_gone};
use pqformat::Text;
use server::BackendFault;
use shared_log::LogName;
use slots::{LINES, SlotName};
use std::alloc::Global;
use std::net::TcpStream;
use std::sync::{MutexGuard, Wait};
use std::time::{Clock, Duration};
use txlog::Publisher;

/// How many milliseconds a client waits for a slot to be free before it is looked whether it has gone.
const LOOK: u64 = 100;

/// A slot that was made, with the snapshot of all that committed below its consistent point.
#[derive(Clone, Copy)]
pub struct SlotWithSnapshot {
    pub consistent_point: u64,
    /// Its number.
    pub snapshot: u64,
}

impl<L: LogName + SlotName> ServerState<L> {
    /// Makes a slot of this user, if any, at the log's end, and answers that position. `SlotExists` (L3) where the name is there,
    /// `NoSlotPlace` (L4) where there are as many slots as may be, or `Memory`. No transaction in progress is waited for: what it
    /// commits later is streamed from there on. Where the log is kept on a disk it is answered once the slot is there too; `NotKept`
    /// (L14) where it doesn't come there.
    // The counter is locked until the slot's monitor says what is kept for it, so that nothing of that is given back meanwhile.
    pub fn create_slot<R: Wait>(
        &self,
        rt: &R,
        name: &str,
        user: Option<&str>,
    ) -> Result<u64, BackendFault> {
        self.judge_disk(rt)?;
        let owner = self.owner(user)?;
        let counter = self.counter.lock(rt);
        let created = self.create_slot_at(rt, name, owner, self.end_of_log(rt));
        drop(counter);
        let position = created?;
        self.await_slots(rt)?;
        Ok(position)
    }

    /// The same with a snapshot of all that committed below that position, which is made in the same step, and its number. The caller
    /// releases it.
    pub fn create_slot_with_snapshot<R: Wait>(
        &self,
        rt: &R,
        name: &str,
        user: Option<&str>,
    ) -> Result<SlotWithSnapshot, BackendFault> {
        self.judge_disk(rt)?;
        let owner = self.owner(user)?;
        let mut publisher = self.publisher.lock(rt);
        let created = self.create_over_snapshot(rt, &mut *publisher, name, owner);
        let _ = MutexGuard::unlock(publisher);
        let made = created?;
        if let Err(fault) = self.await_slots(rt) {
            self.release_snapshot(rt, made.snapshot);
            return Err(fault);
        }
        Ok(made)
    }

    fn create_over_snapshot<R: Wait>(
        &self,
        rt: &R,
        publisher: &mut Publisher<L>,
        name: &str,
        owner: Option<Text>,
    ) -> Result<SlotWithSnapshot, BackendFault> {
        let Ok(snapshot) = publisher.open_snapshot() else {
            drop(owner);
            return Err(BackendFault::Memory);
        };
        match self.create_slot_at(rt, name, owner, publisher.end()) {
            Ok(consistent_point) => Ok(SlotWithSnapshot {
                consistent_point,
                snapshot,
            }),
            Err(fault) => {
                let _ = publisher.close_snapshot(snapshot);
                Err(fault)
            }
        }
    }

    /// Lets a snapshot go.
    pub fn release_snapshot<R: Wait>(&self, rt: &R, snapshot: u64) {
        let mut publisher = self.publisher.lock(rt);
        let _ = publisher.close_snapshot(snapshot);
        let _ = MutexGuard::unlock(publisher);
    }

    fn owner(&self, user: Option<&str>) -> Result<Option<Text>, BackendFault> {
        match user {
            Some(user) => Ok(Some(copied(self.alloc, user)?)),
            None => Ok(None),
        }
    }

    fn create_slot_at<R: Wait>(
        &self,
        rt: &R,
        name: &str,
        owner: Option<Text>,
        end: u64,
    ) -> Result<u64, BackendFault> {
        let known = copied(self.alloc, name)?;
        let mut names = self.names.lock(rt);
        names.create(&self.slots, name, owner, end)?;
        if let Some(monitor) = self.monitor_at(names.place_of(name)) {
            monitor.open(rt, Some(known), end);
        }
        drop(names);
        Ok(end)
    }

    /// Drops a slot. Refused in this order: `NotOwner` (A3) where it is another user's, `SlotMissing` (L1), `SlotInUse` (L2). Where the
    /// log is kept on a disk, `NotKept` (L14) where that may go on to have it.
    pub fn drop_slot<R: Wait>(
        &self,
        rt: &R,
        name: &str,
        user: Option<&str>,
    ) -> Result<(), BackendFault> {
        self.judge_disk(rt)?;
        let mut names = self.names.lock(rt);
        let place = names.drop_slot(&self.slots, name, user)?;
        if let Some(monitor) = self.monitor_at(Some(place)) {
            monitor.remove(rt);
        }
        drop(names);
        self.await_slots(rt)
    }

    /// Drops a slot once no stream has it. Where the client that asks for that, by this socket, has gone before, or the server ends,
    /// the slot is in use (`SlotInUse`, L2). Else refused as `drop_slot`.
    pub fn drop_when_free<R: Wait + Clock>(
        &self,
        rt: &R,
        name: &str,
        user: Option<&str>,
        socket: &TcpStream,
    ) -> Result<(), BackendFault> {
        let mut dropped = self.drop_slot(rt, name, user);
        for _ in rt.forever() {
            if dropped != Err(BackendFault::SlotInUse) {
                break;
            }
            self.await_free(rt, name);
            if self.is_ending() || has_gone(socket) {
                break;
            }
            // Somebody else may have dropped it.
            dropped = self.drop_slot(rt, name, user);
        }
        dropped
    }

    /// Waits for a while, at most until no stream of the slot is written.
    fn await_free<R: Wait + Clock>(&self, rt: &R, name: &str) {
        if let Some(monitor) = self.monitor_at(self.place_of(rt, name)) {
            monitor.await_free(rt, Duration::from_millis(LOOK));
        }
    }

    /// Whether the stream with this latch is held on purpose.
    pub fn holds_stream<R: Wait>(&self, rt: &R, latch: usize) -> bool {
        for monitor in &self.monitors {
            if monitor.holds(rt, latch) {
                return true;
            }
        }
        false
    }

    /// What is known of the slot at a place, and how its stream is steered. None: no place is told.
    pub fn monitor_at(&self, place: Option<usize>) -> Option<&SlotMonitor> {
        match place {
            Some(place) => self.monitors.get(place % LINES),
            None => None,
        }
    }

    /// Whether this user, if any, may use the slot of this name, if there is one.
    pub fn is_open_to<R: Wait>(&self, rt: &R, name: &str, user: Option<&str>) -> bool {
        self.names.lock(rt).may_use(name, user)
    }

    /// Whether a stream of the slot at this place found its chunks full.
    pub fn was_full<R: Wait>(&self, rt: &R, place: usize) -> bool {
        match self.monitor_at(Some(place)) {
            Some(monitor) => monitor.was_full(rt),
            None => false,
        }
    }

    /// The place of the slot of this name. None: there is none.
    pub fn place_of<R: Wait>(&self, rt: &R, slot: &str) -> Option<usize>
        ensures { IfSome result (λ place. place < END_OF_PLACES) }
    {
        self.names.lock(rt).place_of(slot)
    }

    /// A reader with a seat for one more stream. None: as many streams run as may.
    pub fn take_reader_seat<R: Wait>(&self, rt: &R) -> Option<ReaderSeat<L>> {
        self.pool.lock(rt).take()
    }

    /// A stream has ended that had these.
    pub fn give_back<R: Wait>(&self, rt: &R, reader_seat: ReaderSeat<L>) {
        let _ = self.pool.lock(rt).give_back(reader_seat);
    }
}

fn copied(alloc: Global, user: &str) -> Result<Text, BackendFault> {
    match Text::copy_of(alloc, user) {
        Ok(user) => Ok(user),
        Err(_) => Err(BackendFault::Memory),
    }
}
