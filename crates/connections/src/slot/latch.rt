//! What wakes the writing thread of a stream.

ghost use Rattle.std.specs.Prelude.{◌≡◌, ◌≤◌, ◌↔◌, false, max, true};

use std::sync::{Condvar, Mutex, Wait};

/// Set by commits, notes and the stream's own connection. What it tells stays until its stream has seen it, so none is lost.
#[derive(Drop)]
pub struct Latch {
    told: Mutex<LatchState>,
    set: Condvar,
}

/// What a latch tells.
#[derive(Drop)]
struct LatchState {
    /// Where the log's last commit or note ends.
    end: u64,
    /// The connection has something to do.
    has_work: bool,
}

impl LatchState {
    /// Nothing is told yet.
    fn new() -> Self
        ensures { result ≡ record { end = 0; has_work = false } }
    {
        LatchState {
            end: 0,
            has_work: false,
        }
    }

    /// A commit or a note ends there; the greatest end stays.
    fn reach(&mut self, end: u64)
        ensures { self.new ≡ record self.old { end = max self.old.end end } }
    {
        self.end = self.end.max(end);
    }

    /// The connection has something to do.
    fn ask(&mut self)
        ensures { self.new ≡ record self.old { has_work = true } }
    {
        self.has_work = true;
    }

    /// The stream does it now.
    fn answer(&mut self)
        ensures { self.new ≡ record self.old { has_work = false } }
    {
        self.has_work = false;
    }

    /// Whether a stream at this position has nothing to do: it has read up to the last commit or note, and its connection asks
    /// for nothing.
    fn is_quiet(&self, position: u64) -> bool
        ensures { (result ≡ true) ↔ ((self.now.has_work ≡ false) × (self.now.end ≤ position)) }
    {
        !self.has_work && self.end <= position
    }
}

impl Latch {
    pub fn new() -> Self {
        Latch {
            told: Mutex::new(LatchState::new()),
            set: Condvar::new(),
        }
    }

    /// A commit or a note ends there.
    pub fn tell_end<R: Wait>(&self, rt: &R, end: u64) {
        let mut told = self.told.lock(rt);
        told.reach(end);
        drop(told);
        self.set.notify_all();
    }

    /// The connection has something to do.
    pub fn tell_work<R: Wait>(&self, rt: &R) {
        let mut told = self.told.lock(rt);
        told.ask();
        drop(told);
        self.set.notify_all();
    }

    /// Waits until a commit or a note ends after this position, or the connection has something to do.
    pub fn wait<R: Wait>(&self, rt: &R, position: u64) {
        let mut told = self
            .set
            .wait_while(rt, self.told.lock(rt), |told| told.is_quiet(position));
        told.answer();
        drop(told);
    }
    /// Waits until the connection has something to do, whatever commits and notes end.
    pub fn wait_for_work<R: Wait>(&self, rt: &R) {
        let mut told = self
            .set
            .wait_while(rt, self.told.lock(rt), |told| !told.has_work);
        told.answer();
        drop(told);
    }
}
