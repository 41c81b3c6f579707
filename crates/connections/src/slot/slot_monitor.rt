//! Where the stream of a slot meets those that look at it or steer it.

ghost use Rattle.std.specs.Prelude.{◌≤◌};

use crate::slot::flush_lag::moment;
use crate::slot::slot_keeping::SlotKeeping;
use crate::slot::slot_snapshot::{SlotSnapshot, is_short};
use crate::slot::slot_standing::SlotStanding;
use crate::slot::stream_control::StreamCommand;
use crate::socket::commit_counter::CommitCounter;
use pqformat::Text;
use std::alloc::{AllocError, Global};
use std::mem;
use std::sync::{Condvar, Mutex, MutexGuard, Wait};
use std::time::{Clock, Duration};

/// What is known of the slot on one line, and how its stream is steered. What it knows is told to it: the slot itself is asked only
/// by whoever holds it.
#[derive(Drop)]
pub struct SlotMonitor {
    known: Mutex<SlotSnapshot>,
    /// The slot was confirmed further, or dropped, or a stream of it has begun or ended.
    moved: Condvar,
}

impl SlotMonitor {
    pub fn new() -> Self {
        SlotMonitor {
            known: Mutex::new(SlotSnapshot::nothing()),
            moved: Condvar::new(),
        }
    }

    // ---- whoever makes and drops slots

    /// A slot was made here, confirmed at this position.
    pub fn open<R: Wait>(&self, rt: &R, name: Option<Text>, confirmed: u64) {
        let mut known = self.known.lock(rt);
        let number = known.number.saturating_add(1);
        let before = mem::replace(&mut *known, SlotSnapshot::opened(name, confirmed, number));
        drop(known);
        drop(before);
    }

    /// Streams of the slot may begin up to there: some have come so far that were of another run of the server.
    pub fn reach<R: Wait>(&self, rt: &R, position: u64) {
        let mut known = self.known.lock(rt);
        known.reached = known.reached.max(position);
        drop(known);
    }

    /// The slot was dropped: nothing is kept for it, and nobody waits for it any more.
    pub fn remove<R: Wait>(&self, rt: &R) {
        let mut known = self.known.lock(rt);
        known.keeping = SlotKeeping::Nothing;
        drop(known);
        self.close(rt);
    }

    /// The slot was dropped, or the server ends: nobody waits for it any more.
    pub fn close<R: Wait>(&self, rt: &R) {
        let mut known = self.known.lock(rt);
        known.is_open = false;
        drop(known);
        self.moved.notify_all();
    }

    // ---- the writing thread of a stream

    /// The stream with this latch begins.
    pub fn begin<R: Wait>(&self, rt: &R, latch: usize) {
        let mut known = self.known.lock(rt);
        known.latch = Some(latch);
        known.counter = CommitCounter::new();
        known.lag.begin();
        known.was_cut = false;
        drop(known);
        self.moved.notify_all();
    }

    /// Up to where the stream has read and was confirmed, and how many of so many chunks are free. It answers whether a tenth of them
    /// isn't any more.
    pub fn report<R: Wait + Clock>(
        &self,
        rt: &R,
        read: u64,
        confirmed: u64,
        free_chunks: usize,
        chunks: usize,
    ) -> bool {
        let now = moment(rt);
        let mut known = self.known.lock(rt);
        if let Some(now) = now {
            known.lag.note(read, confirmed, now);
        }
        known.read = read;
        known.free_chunks = free_chunks;
        let before = known.confirmed;
        known.confirmed = before.max(confirmed);
        known.reached = known.reached.max(read).max(confirmed);
        let was_short = known.is_short;
        known.is_short = is_short(free_chunks, chunks, was_short);
        let runs_short = known.is_short && !was_short;
        drop(known);
        if before < confirmed {
            self.moved.notify_all();
        }
        runs_short
    }

    /// A status of the client came.
    pub fn hear<R: Wait>(&self, rt: &R, at: Option<Duration>) {
        let mut known = self.known.lock(rt);
        known.heard = at;
        drop(known);
    }

    /// The stream has ended. It answers whether that was a cut on purpose.
    pub fn end<R: Wait>(&self, rt: &R) -> bool {
        let mut known = self.known.lock(rt);
        known.latch = None;
        let was_cut = known.was_cut;
        drop(known);
        self.moved.notify_all();
        was_cut
    }

    /// The chunks of the stream are full.
    pub fn fill<R: Wait>(&self, rt: &R) {
        let mut known = self.known.lock(rt);
        known.was_full = true;
        drop(known);
    }

    /// Whether the chunks of one of the slot's streams were full.
    pub fn was_full<R: Wait>(&self, rt: &R) -> bool {
        self.known.lock(rt).was_full
    }

    /// Up to where any stream of the slot has read the log, or its client has confirmed: no client has got anything after that.
    pub fn reached<R: Wait>(&self, rt: &R) -> u64 {
        self.known.lock(rt).reached
    }

    /// How many of so many bytes may be sent.
    pub fn passing<R: Wait>(&self, rt: &R, count: usize) -> usize
        ensures { result ≤ count }
    {
        let known = self.known.lock(rt);
        let passing = known.control.passing(count);
        drop(known);
        passing
    }

    /// These bytes were sent.
    pub fn pass<R: Wait>(&self, rt: &R, bytes: &[u8]) {
        let mut known = self.known.lock(rt);
        let commits = known.counter.pass(bytes);
        known.transactions = known.transactions.saturating_add(commits);
        known.sent = known.sent.saturating_add(bytes.len() as u64);
        known.control.pass(bytes.len());
        drop(known);
    }

    pub fn is_held<R: Wait>(&self, rt: &R) -> bool {
        self.known.lock(rt).control.is_held()
    }

    pub fn is_cut<R: Wait>(&self, rt: &R) -> bool {
        self.known.lock(rt).control.is_cut()
    }

    /// Whether the connection is to be cut before the next byte. It then is, so that a line that comes from now on cuts the next one.
    pub fn take_cut<R: Wait>(&self, rt: &R) -> bool {
        let mut known = self.known.lock(rt);
        let is_cut = known.control.take_cut();
        if is_cut {
            known.was_cut = true;
        }
        drop(known);
        is_cut
    }

    pub fn take_ask<R: Wait>(&self, rt: &R) -> bool {
        let mut known = self.known.lock(rt);
        let asks = known.control.take_ask();
        drop(known);
        asks
    }

    // ---- whoever gives records back

    /// The position from which a stream of the slot may begin, for which the log is kept. None: it isn't, or no slot is here.
    pub fn kept_from<R: Wait>(&self, rt: &R) -> Option<u64> {
        let known = self.known.lock(rt);
        let kept = if known.keeping == SlotKeeping::Reserved {
            Some(known.confirmed)
        } else {
            None
        };
        drop(known);
        kept
    }

    /// The log is kept for the slot no more. It answers the latch that wakes its stream, if one runs.
    pub fn give_up<R: Wait>(&self, rt: &R) -> Option<usize> {
        let mut known = self.known.lock(rt);
        known.keeping = SlotKeeping::Lost;
        let latch = known.latch;
        drop(known);
        latch
    }

    /// What of the slot here outlives the server, also once that ends. None: there is none. `AllocError` where memory for it is
    /// refused.
    pub fn standing<R: Wait>(
        &self,
        rt: &R,
        alloc: Global,
    ) -> Result<Option<SlotStanding>, AllocError> {
        self.known.lock(rt).standing(alloc)
    }

    /// Whether the slot that is here was given up.
    pub fn is_lost<R: Wait>(&self, rt: &R) -> bool {
        self.known.lock(rt).keeping == SlotKeeping::Lost
    }

    // ---- whoever looks or steers

    /// Changes how the stream is steered, and answers the latch that wakes it, if it runs.
    pub fn steer<R: Wait>(&self, rt: &R, command: StreamCommand) -> Option<usize> {
        let mut known = self.known.lock(rt);
        known.control.steer(command);
        let latch = known.latch;
        drop(known);
        latch
    }

    /// Waits until the slot is confirmed at this position or further, for so long at most, and answers whether it is. None: it was
    /// dropped, or the server ends.
    pub fn await_confirmed<R: Wait + Clock>(
        &self,
        rt: &R,
        position: u64,
        patience: Duration,
    ) -> Option<bool> {
        let known = self.known.lock(rt);
        let (known, _) = self.moved.wait_timeout_while(rt, known, patience, |known| {
            known.is_open && known.confirmed < position
        });
        let is_met = position <= known.confirmed;
        if_open(known, is_met)
    }

    /// The same until a stream of the slot runs, None as there.
    pub fn await_stream<R: Wait + Clock>(&self, rt: &R, patience: Duration) -> Option<bool> {
        let known = self.known.lock(rt);
        let (known, _) = self.moved.wait_timeout_while(rt, known, patience, |known| {
            known.is_open && known.latch.is_none()
        });
        let is_met = known.latch.is_some();
        if_open(known, is_met)
    }

    /// Waits for so long at most, until no stream of the slot is written, or it is dropped, or the server ends.
    pub fn await_free<R: Wait + Clock>(&self, rt: &R, limit: Duration) {
        drop(
            self.moved
                .wait_timeout_while(rt, self.known.lock(rt), limit, |known| {
                    known.is_open && known.latch.is_some()
                }),
        );
    }

    /// Whether the stream with this latch runs here, and is held.
    pub fn holds<R: Wait>(&self, rt: &R, latch: usize) -> bool {
        let known = self.known.lock(rt);
        let holds = known.latch == Some(latch) && known.control.is_held();
        drop(known);
        holds
    }

    /// What is known of the slot here. None: there is none. `AllocError` where memory for it is refused.
    pub fn look<R: Wait>(&self, rt: &R, alloc: Global) -> Result<Option<SlotSnapshot>, AllocError> {
        self.known.lock(rt).copy(alloc)
    }
}

/// Whether it is so, where the slot is there.
fn if_open(known: MutexGuard<'_, SlotSnapshot>, is_met: bool) -> Option<bool> {
    let is_open = known.is_open;
    drop(known);
    if is_open { Some(is_met) } else { None }
}
