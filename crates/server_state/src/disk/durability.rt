//! Who waits until something is on the disk, and who puts it there.

use crate::disk::disk_state::{DiskState, Round};
use std::sync::atomic::{AtomicUsize, Ordering};
use std::sync::{Condvar, Mutex, MutexGuard, Wait};
use std::time::{Clock, Duration};

/// Where sessions and streams of a log that is kept meet who keeps it.
#[derive(Drop)]
pub(crate) struct Durability {
    state: Mutex<DiskState>,
    /// More is on the disk, or nothing more will be.
    moved: Condvar,
    /// There is something to put there.
    wanted: Condvar,
    /// How many records of the log are on the disk.
    readable: AtomicUsize,
}

impl Durability {
    /// Of a log whose first records, so many and up to this position, are on the disk.
    pub fn of(count: usize, end: u64) -> Self {
        Durability {
            state: Mutex::new(DiskState::of(end)),
            moved: Condvar::new(),
            wanted: Condvar::new(),
            readable: AtomicUsize::new(count),
        }
    }

    // ---- who waits

    /// Waits until the log is on the disk up to this position, and answers whether it is: not where the disk fails before, or the
    /// server ends.
    pub fn await_end<R: Wait>(&self, rt: &R, end: u64) -> bool {
        let state = self.wanted(rt);
        let state = self
            .moved
            .wait_while(rt, state, |state| state.is_awaited(end));
        let is_there = state.has(end);
        drop(state);
        is_there
    }

    /// Waits until all is on the disk that there is now, slots too, and answers whether it is, as `await_end`.
    pub fn await_all<R: Wait>(&self, rt: &R) -> bool {
        let mut state = self.wanted(rt);
        state.want_slots();
        let round = state.next_round();
        let state = self
            .moved
            .wait_while(rt, state, |state| state.is_round_awaited(round));
        let is_done = state.has_done(round);
        drop(state);
        is_done
    }

    /// Nobody waits for it, but it is to be put on the disk.
    pub fn want<R: Wait>(&self, rt: &R) {
        drop(self.wanted(rt));
    }

    fn wanted<R: Wait>(&self, rt: &R) -> MutexGuard<'_, DiskState> {
        let mut state = self.state.lock(rt);
        state.want();
        self.wanted.notify_one();
        state
    }

    // ---- who looks

    pub fn look<R: Wait>(&self, rt: &R) -> DiskState {
        *self.state.lock(rt)
    }

    /// How many records of the log are on the disk.
    pub fn readable(&self) -> usize {
        self.readable.load(Ordering::SeqCst)
    }

    // ---- who keeps the log

    /// Waits until a round begins: for so long at most.
    pub fn begin_round<R: Wait + Clock>(&self, rt: &R, period: Duration) -> Round {
        let state = self.state.lock(rt);
        let (mut state, _) = self
            .wanted
            .wait_timeout_while(rt, state, period, |state| state.is_quiet());
        let round = state.begin_round();
        drop(state);
        round
    }

    /// The first records of the log, so many and up to this position, are on the disk.
    pub fn end_round<R: Wait>(&self, rt: &R, count: usize, end: u64) {
        self.readable.store(count, Ordering::SeqCst);
        let mut state = self.state.lock(rt);
        state.end_round(end);
        drop(state);
        self.moved.notify_all();
    }

    /// The disk has failed.
    pub fn fail<R: Wait>(&self, rt: &R) {
        let mut state = self.state.lock(rt);
        state.fail();
        drop(state);
        self.moved.notify_all();
    }

    /// Nothing more is put on the disk.
    pub fn close<R: Wait>(&self, rt: &R) {
        let mut state = self.state.lock(rt);
        state.close();
        drop(state);
        self.moved.notify_all();
    }

    /// The server ends: who keeps the log puts on the disk what there is, and ends.
    pub fn end<R: Wait>(&self, rt: &R) {
        let mut state = self.state.lock(rt);
        state.end();
        drop(state);
        self.wanted.notify_all();
    }
}
