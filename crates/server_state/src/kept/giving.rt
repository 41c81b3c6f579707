//! Records that nobody needs any more leave the log.

ghost use Rattle.std.specs.Prelude.{◌≡◌, ◌≤◌, IfSome, None};
ghost use Rattle.txlog.specs.Giving.{GivesBack};

use crate::server_state::ServerState;
use shared_log::{LogName, LogReader};
use slots::SlotName;
use std::sync::Wait;
use std::sync::atomic::Ordering;
use txlog::{Publisher, kept_place};

/// It is looked for such records whenever the log has had so many more: a sixteenth of those that it has room for.
const PARTS: usize = 16;

impl<L: LogName + SlotName> ServerState<L> {
    /// Gives the records back that no slot, no stream and no transaction in progress needs, where many have come since that was done
    /// last, or the log has no room. A slot that holds more than it may is given up before.
    ///
    /// What a stream needs its slot does, since its reader stands nowhere before where it would begin at the slot's position. Of a log
    /// that is kept on a disk nothing leaves it that isn't there, nor that it needs by what the disk has of slots. Answers the position
    /// for which the log is kept, if it was looked.
    pub fn make_room<R: Wait>(&self, rt: &R, publisher: &mut Publisher<L>) -> Option<u64>
        ensures gives { IfSome result (λ least. GivesBack least publisher.old publisher.new) }
        ensures none { result ≡ None → publisher.new ≡ publisher.old }
    {
        let count = publisher.count();
        if 0 < publisher.room() && count < self.next_look.load(Ordering::SeqCst) {
            return None;
        }
        if publisher.room() < self.settings.capacity / 2 {
            // What the disk has of slots may lie behind what their clients have confirmed.
            let _ = self.await_slots(rt);
        }
        let mut counter = self.counter.lock(rt);
        self.give_up_slots(rt, &mut *counter, count);
        let least = self.least_confirmed(rt, publisher.end());
        publisher.give_back_before(&mut *counter, least);
        drop(counter);
        let next = count.saturating_add(self.part());
        self.next_look.store(next, Ordering::SeqCst);
        Some(least)
    }

    /// How many records come between two looks.
    fn part(&self) -> usize {
        let most = self.settings.max_slot_keep.unwrap_or(usize::MAX);
        self.settings.capacity.min(most) / PARTS
    }

    /// The least position that a slot is confirmed at, or that the disk has of one, or where the log ends there.
    fn least_confirmed<R: Wait>(&self, rt: &R, end: u64) -> u64
        ensures { result ≤ end }
    {
        let end = self.end_on_disk(rt, end);
        let mut least = self.journal.lock(rt).least_confirmed(end);
        for monitor in &self.monitors {
            if let Some(confirmed) = monitor.kept_from(rt) {
                least = least.min(confirmed);
            }
        }
        least
    }

    /// Gives those slots up that hold more of the log's `count` records than they may, and wakes their streams, which end.
    fn give_up_slots<R: Wait>(&self, rt: &R, counter: &mut LogReader<L>, count: usize) {
        let Some(most) = self.settings.max_slot_keep else {
            return;
        };
        for monitor in &self.monitors {
            let Some(confirmed) = monitor.kept_from(rt) else {
                continue;
            };
            let place = kept_place(counter, confirmed, count).unwrap_or(0);
            if most < count.saturating_sub(place) {
                if let Some(latch) = monitor.give_up(rt) {
                    self.tell_work(rt, latch);
                }
            }
        }
    }
}
