//! What runs, for whoever looks.

use crate::server_state::ServerState;
use connections::{SlotKeeping, SlotSnapshot, moment};
use pqformat::Text;
use shared_log::LogName;
use slots::SlotName;
use std::alloc::{AllocError, Global};
use std::sync::Wait;
use std::sync::atomic::Ordering;
use std::time::{Clock, Duration};
use txlog::kept_place;

/// What a hub serves at one moment.
#[derive(Drop)]
pub struct HubStatus {
    /// How many connections are served.
    pub connections: u32,
    /// How many streams have begun since the hub was opened.
    pub streams_begun: u64,
    /// The position where the log ends.
    pub log_end: u64,
    /// How many records of the log are kept.
    pub records: usize,
    /// How many it has room for at once, those included.
    pub capacity: usize,
    /// Where the log is kept on a disk: how it is there.
    pub disk: Option<DiskStatus>,
    pub slots: Vec<SlotStatus>,
}

/// A log on its disk at that moment.
#[derive(Clone, Copy, Drop)]
pub struct DiskStatus {
    /// The position up to which it is there.
    pub end: u64,
    /// Whether a write or a sync has failed: nothing is written any more.
    pub has_failed: bool,
}

/// A slot at that moment.
#[derive(Drop)]
pub struct SlotStatus {
    /// None: there was no memory for it.
    pub name: Option<Text>,
    /// Up to where its client has confirmed.
    pub confirmed: u64,
    /// Whether a stream holds it.
    pub is_active: bool,
    /// Whether its stream is held on purpose.
    pub is_held: bool,
    /// Up to where its last stream has read the log.
    pub read: u64,
    /// How many bytes its streams have sent, and how many transactions.
    pub sent: u64,
    pub transactions: u64,
    /// How many chunks of its last stream are free.
    pub free_chunks: usize,
    /// How long ago its client's last status came.
    pub silent_for: Option<Duration>,
    /// How many microseconds ago the log came past what its client has confirmed: none where it didn't.
    pub behind_for: u64,
    /// How many microseconds its client takes to confirm what was sent to it, where that was measured.
    pub flush_lag: Option<u64>,
    /// How many records of the log are kept for it.
    pub kept: usize,
    /// Whether it held more than it may, and was given up.
    pub is_lost: bool,
}

impl<L: LogName + SlotName> ServerState<L> {
    /// What is served now. The parts are looked at one after the other, so connections may have gone on in between. `AllocError`
    /// where memory for it is refused.
    pub fn status<R: Wait + Clock>(&self, rt: &R) -> Result<HubStatus, AllocError> {
        let size = *self.log_size.lock(rt);
        Ok(HubStatus {
            connections: self.served.load(Ordering::SeqCst),
            streams_begun: self.streams_begun.load(Ordering::SeqCst),
            log_end: size.end,
            records: size.kept,
            capacity: self.settings.capacity,
            disk: self.disk_status(rt),
            slots: self.slot_statuses(rt, size.count)?,
        })
    }

    fn disk_status<R: Wait>(&self, rt: &R) -> Option<DiskStatus> {
        let durability = self.durability.as_ref()?;
        let state = durability.look(rt);
        Some(DiskStatus {
            end: state.end,
            has_failed: state.has_failed,
        })
    }

    /// The slots, beside a log of so many records.
    fn slot_statuses<R: Wait + Clock>(
        &self,
        rt: &R,
        count: usize,
    ) -> Result<Vec<SlotStatus>, AllocError> {
        let mut slots = Vec::new(self.alloc);
        for monitor in &self.monitors {
            if let Some(known) = monitor.look(rt, self.alloc)? {
                let kept = self.kept_for(rt, &known, count);
                let times = self.times_of(rt, &known);
                slots.push(status_of(known, times, kept))?;
            }
        }
        Ok(slots)
    }

    /// What the clock tells of a slot.
    fn times_of<R: Wait + Clock>(&self, rt: &R, known: &SlotSnapshot) -> SlotTimes {
        let past = self.times.lock(rt).past(known.confirmed);
        // Read after the mark, which therefore lies before it.
        SlotTimes {
            silent_for: silence(rt.monotonic().ok(), known.heard),
            behind_for: match (moment(rt), past) {
                (Some(now), Some(past)) => now.saturating_sub(past),
                _ => 0,
            },
            flush_lag: match moment(rt) {
                Some(now) => known.lag.told(now),
                None => None,
            },
        }
    }

    /// How many of so many records are kept for a slot.
    fn kept_for<R: Wait>(&self, rt: &R, known: &SlotSnapshot, count: usize) -> usize {
        if known.keeping == SlotKeeping::Lost {
            return 0;
        }
        let mut counter = self.counter.lock(rt);
        let place = kept_place(&mut *counter, known.confirmed, count);
        drop(counter);
        match place {
            Some(place) => count.saturating_sub(place),
            None => 0,
        }
    }
}

/// What the clock tells of a slot at one moment.
#[derive(Clone, Copy)]
struct SlotTimes {
    silent_for: Option<Duration>,
    behind_for: u64,
    flush_lag: Option<u64>,
}

/// How long ago something was heard.
fn silence(now: Option<Duration>, heard: Option<Duration>) -> Option<Duration> {
    match (now, heard) {
        (Some(now), Some(heard)) => Some(now.saturating_sub(heard)),
        _ => None,
    }
}

fn status_of(known: SlotSnapshot, times: SlotTimes, kept: usize) -> SlotStatus {
    SlotStatus {
        name: known.name,
        confirmed: known.confirmed,
        is_active: known.latch.is_some(),
        is_held: known.control.is_held(),
        read: known.read,
        sent: known.sent,
        transactions: known.transactions,
        free_chunks: known.free_chunks,
        silent_for: times.silent_for,
        behind_for: times.behind_for,
        flush_lag: times.flush_lag,
        kept,
        is_lost: known.keeping == SlotKeeping::Lost,
    }
}
