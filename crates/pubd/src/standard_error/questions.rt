//! Which questions of PostgreSQL's clients are told as refused.

use hub::{Refusal, RefusedCommand};
use std::sync::atomic::{AtomicBool, Ordering};

/// Whether a question of a kind was told yet: each is told once, since its client asks it again and again.
#[derive(Drop)]
pub struct Questions {
    copy: AtomicBool,
    others: AtomicBool,
}

impl Questions {
    pub fn new() -> Self {
        Questions {
            copy: AtomicBool::new(false),
            others: AtomicBool::new(false),
        }
    }

    /// Whether the refusal is still to be told. All but questions always are.
    pub fn is_due(&self, what: &RefusedCommand<'_>) -> bool {
        match what {
            RefusedCommand::Text(_, Refusal::InitialCopy) => !self
                .copy
                .swap(true, Ordering::SeqCst),
            RefusedCommand::Text(_, Refusal::Question(_)) => {
                !self.others.swap(true, Ordering::SeqCst)
            }
            _ => true,
        }
    }
}
