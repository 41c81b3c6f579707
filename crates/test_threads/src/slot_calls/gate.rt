//! A gate before which threads meet.

use std::sync::atomic::{AtomicUsize, Ordering};
use std::thread;

/// How often a thread looks whether the others are there.
const LOOKS: u32 = 100_000;

/// Lets threads begin together. Whoever has looked long enough goes alone: where no thread can be made, calls run one after
/// another.
#[derive(Drop)]
pub struct Gate {
    here: AtomicUsize,
    all: usize,
}

impl Gate {
    pub fn new(all: usize) -> Self {
        Gate {
            here: AtomicUsize::new(0),
            all,
        }
    }

    pub fn pass(&self) {
        self.here.fetch_add(1, Ordering::SeqCst);
        for _ in 0..LOOKS {
            if self.here.load(Ordering::SeqCst) >= self.all {
                return;
            }
            thread::yield_now();
        }
    }
}
