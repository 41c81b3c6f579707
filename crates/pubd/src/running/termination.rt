//! SIGTERM, where whoever started the process has blocked it: it stays pending then, and the server ends in order.

use std::alloc::{AllocError, Global};
use std::fs::File;
use std::os::unix::fs::FileExt;
use std::sync::{Arc, Condvar, Mutex, Wait};
use std::time::{Clock, Duration};
use std::{io, thread};

/// Where Linux tells the signals of a process (proc_pid_status(5)).
pub const SIGNALS: &str = "/proc/self/status";

/// The lines of the signals that are pending for the process, and of those that it blocks: a mask in hexadecimal.
const PENDING: &[u8] = b"ShdPnd:\t";

const BLOCKED: &[u8] = b"SigBlk:\t";

/// SIGTERM is 15, so it is bit 14 of a mask: bit 2 of the fourth digit from the right.
const DIGIT: usize = 4;

/// More than that file has bytes.
const MOST_BYTES: usize = 8192;

/// How many milliseconds pass between two looks.
const LOOK: u64 = 500;

/// Whether the process was told to end, for whoever waits for that.
#[derive(Drop)]
pub struct Termination {
    stage: Mutex<TerminationState>,
    changed: Condvar,
}

#[derive(Clone, Copy, PartialEq, Eq)]
enum TerminationState {
    Awaited,
    Told,
    /// The server has ended.
    Over,
}

impl Termination {
    /// Nobody was told yet. `AllocError` where memory for what threads share is refused.
    pub fn new(alloc: Global) -> Result<Arc<Self, Global>, AllocError> {
        let awaited = Termination {
            stage: Mutex::new(TerminationState::Awaited),
            changed: Condvar::new(),
        };
        Ok(Arc::new(alloc, awaited)?)
    }

    /// Waits until the process is told to end, or the server has ended, which is false.
    pub fn is_told<R: Wait>(&self, rt: &R) -> bool {
        let stage = self.changed.wait_while(
            rt,
            self.stage.lock(rt),
            |stage| *stage == TerminationState::Awaited,
        );
        *stage == TerminationState::Told
    }

    /// The server has ended: nobody waits any more.
    pub fn close<R: Wait>(&self, rt: &R) {
        self.enter(rt, TerminationState::Over);
    }

    fn enter<R: Wait>(&self, rt: &R, next: TerminationState) {
        let mut stage = self.stage.lock(rt);
        *stage = next;
        drop(stage);
        self.changed.notify_all();
    }

    fn is_over<R: Wait>(&self, rt: &R) -> bool {
        *self.stage.lock(rt) == TerminationState::Over
    }
}

/// Looks for the signal until it is pending, or the server has ended. Where the file can't be read any more, nobody is told.
pub fn watch_signals<R: Wait + Clock>(rt: &R, signals: &File, termination: &Termination) {
    for _ in rt.forever() {
        if termination.is_over(rt) {
            return;
        }
        match has_signal(signals, PENDING) {
            Ok(true) => return termination.enter(rt, TerminationState::Told),
            Ok(false) => thread::sleep(rt, Duration::from_millis(LOOK)),
            Err(_) => return,
        }
    }
}

/// Whether SIGTERM is blocked. The system's error where the file can't be read.
pub fn blocks_signal(signals: &File) -> io::Result<bool> {
    has_signal(signals, BLOCKED)
}

/// Whether SIGTERM is in the mask of the line that begins so.
fn has_signal(signals: &File, line: &[u8]) -> io::Result<bool> {
    let mut room = [0; MOST_BYTES];
    let count = signals.read_at(&mut room, 0)?;
    Ok(is_in_mask(mask_of(&room[..count.min(MOST_BYTES)], line)))
}

/// The rest of the line that begins so, or nothing.
fn mask_of<'a>(status: &'a [u8], front: &[u8]) -> &'a [u8] {
    for line in status.split(|byte| *byte == b'\n') {
        if let Some(mask) = line.strip_prefix(front) {
            return mask;
        }
    }
    &[]
}

fn is_in_mask(mask: &[u8]) -> bool {
    match mask.len().checked_sub(DIGIT) {
        Some(at) => matches!(mask.get(at), Some(b'4'..=b'7' | b'c'..=b'f')),
        None => false,
    }
}
