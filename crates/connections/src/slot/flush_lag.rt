//! How long a client takes to confirm what was sent to it.

ghost use Rattle.std.specs.Prelude.{◌≡◌, None};
ghost use Rattle.connections.specs.FlushLags.{due_after, last_after, told_lag};

use std::time::Clock;

/// Up to where a stream had read and sent, and when, in microseconds.
#[derive(Clone, Copy)]
pub struct Sent {
    position: u64,
    at: u64,
}

/// How long a client takes to confirm what was sent to it, as `flush_lag` of pg_stat_replication (PostgreSQL 15, 28.2.4), by one
/// position at a time: the next one is chosen once it was confirmed.
#[derive(Clone, Copy)]
pub struct FlushLag {
    /// What isn't confirmed yet.
    due: Option<Sent>,
    /// How many microseconds it took the last time.
    last: Option<u64>,
}

impl FlushLag {
    /// Nothing was sent.
    pub fn new() -> Self
        ensures { result ≡ record { due = None; last = None } }
    {
        FlushLag {
            due: None,
            last: None,
        }
    }

    /// Another stream begins: what the one before has sent may never have come.
    pub fn begin(&mut self)
        ensures { self.new ≡ record self.old { due = None } }
    {
        self.due = None;
    }

    /// At this moment the stream has read and sent up to one position, and its client has confirmed up to the other.
    pub fn note(&mut self, read: u64, confirmed: u64, now: u64)
        ensures due { self.new.due ≡ due_after read confirmed now self.old.due }
        ensures last { self.new.last ≡ last_after confirmed now self.old.due self.old.last }
    {
        if let Some(due) = self.due {
            if confirmed < due.position {
                return;
            }
            self.last = Some(now.saturating_sub(due.at));
            self.due = None;
        }
        if confirmed < read {
            self.due = Some(Sent {
                position: read,
                at: now,
            });
        }
    }

    /// How many microseconds it took the last time, or takes at this moment already, if that is more. None: nothing was measured.
    pub fn told(&self, now: u64) -> Option<u64>
        ensures { result ≡ told_lag now self.now.due self.now.last }
    {
        match (self.due, self.last) {
            (Some(due), Some(last)) => Some(now.saturating_sub(due.at).max(last)),
            (Some(due), None) => Some(now.saturating_sub(due.at)),
            (None, last) => last,
        }
    }
}

/// The microseconds of a clock that never goes back. None: it can't be read.
pub fn moment<R: Clock>(rt: &R) -> Option<u64> {
    let since = rt.monotonic().ok()?;
    u64::try_from(since.as_micros()).ok()
}
