//! What is told on the standard error, by a thread of its own, so that nobody waits for whoever reads it.

use crate::scripting::Done;
use crate::status::log_watch::LogWatch;
use std::alloc::{AllocError, Global};
use std::collections::VecDeque;
use std::fmt::Display;
use std::mem;
use std::sync::{Condvar, Mutex, MutexGuard, Wait};
use std::time::{Clock, Duration};

/// How many lines wait at most to be written.
const MOST_LINES: usize = 1000;

/// For how many seconds the program's end waits for what is left.
const PATIENCE: u64 = 1;

/// Lines on their way to the standard error. Those that there is no room for are dropped and counted, and the count is told once
/// those before them are written.
#[derive(Drop)]
pub struct ErrorLog {
    alloc: Global,
    log: LogWatch,
    untold: Mutex<Untold>,
    changed: Condvar,
}

#[derive(Drop)]
struct Untold {
    lines: VecDeque<String>,
    dropped: u64,
    /// No more lines come.
    is_over: bool,
    /// All of them are written.
    is_done: bool,
}

/// What is written at a time.
#[derive(Drop)]
struct Batch {
    lines: VecDeque<String>,
    dropped: u64,
}

impl ErrorLog {
    /// For a server whose log has so many places.
    pub fn new(alloc: Global, places: usize) -> Self {
        ErrorLog {
            alloc,
            log: LogWatch::new(places),
            untold: Mutex::new(Untold {
                lines: VecDeque::new(alloc),
                dropped: 0,
                is_over: false,
                is_done: false,
            }),
            changed: Condvar::new(),
        }
    }

    /// Has a line told, and waits for nobody who reads it.
    pub fn line<R: Wait, D: Display + Drop>(&self, rt: &R, line: D) {
        let text = format!(in self.alloc; "{line}");
        let mut untold = self.untold.lock(rt);
        untold.add(text);
        drop(untold);
        self.changed.notify_all();
    }

    /// A line was done: where it was the commit with which the log is nearly full, that is told.
    pub fn done<R: Wait>(&self, rt: &R, done: Done) {
        if let Done::Commit { kept, .. } = done {
            if let Some(nearly_full) = self.log.look(kept) {
                self.line(rt, nearly_full);
            }
        }
    }

    /// Nothing more is told: waits until all is written, for a second at most.
    pub fn end<R: Wait + Clock>(&self, rt: &R) {
        let mut untold = self.untold.lock(rt);
        untold.is_over = true;
        self.changed.notify_all();
        let patience = Duration::from_secs(PATIENCE);
        let (untold, _) = self
            .changed
            .wait_timeout_while(rt, untold, patience, |untold| !untold.is_done);
        drop(untold);
    }

    /// What is to be written next. None: that was all.
    fn take<R: Wait>(&self, rt: &R) -> Option<Batch> {
        let mut untold = self
            .changed
            .wait_while(rt, self.untold.lock(rt), |untold| untold.is_quiet());
        let batch = untold.take(self.alloc);
        MutexGuard::unlock(untold);
        self.changed.notify_all();
        batch
    }
}

impl Untold {
    fn add(&mut self, line: Result<String, AllocError>) {
        if !self.has_room_for(line) {
            self.dropped = self.dropped.saturating_add(1);
        }
    }

    fn has_room_for(&mut self, line: Result<String, AllocError>) -> bool {
        if MOST_LINES <= self.lines.len() {
            return false;
        }
        match line {
            Ok(line) => self.lines.push_back(line).is_ok(),
            Err(_) => false,
        }
    }

    fn is_quiet(&self) -> bool {
        self.lines.is_empty() && self.dropped == 0 && !self.is_over
    }

    fn take(&mut self, alloc: Global) -> Option<Batch> {
        if self.lines.is_empty() && self.dropped == 0 {
            self.is_done = true;
            return None;
        }
        Some(Batch {
            lines: mem::replace(&mut self.lines, VecDeque::new(alloc)),
            dropped: mem::replace(&mut self.dropped, 0),
        })
    }
}

/// Writes what is told until that is over.
pub fn write_told<R: Wait + Eprint>(rt: &R, told: &ErrorLog) {
    for _ in rt.forever() {
        let Some(batch) = told.take(rt) else {
            return;
        };
        write_batch(rt, batch);
    }
}

fn write_batch<R: Eprint>(rt: &R, batch: Batch) {
    let Batch { mut lines, dropped } = batch;
    for _ in 0..MOST_LINES {
        let Some(line) = lines.pop_front() else {
            break;
        };
        let _ = rt.eprintln(line);
    }
    if dropped != 0 {
        let _ = rt.eprintln(format_args!("pubd: {dropped} lines could not be told"));
    }
}
