//! What is known of a slot at one moment.

use crate::slot::flush_lag::FlushLag;
use crate::slot::slot_keeping::SlotKeeping;
use crate::slot::slot_standing::SlotStanding;
use crate::slot::stream_control::StreamControl;
use crate::socket::commit_counter::CommitCounter;
use pqformat::Text;
use std::alloc::{AllocError, Global};
use std::time::Duration;

/// What is known of a slot.
#[derive(Drop)]
pub struct SlotSnapshot {
    /// A slot is at this place.
    pub(crate) is_open: bool,
    /// Its name, unless there was no memory for it.
    pub name: Option<Text>,
    pub confirmed: u64,
    /// Which latch wakes its stream, while one runs.
    pub latch: Option<usize>,
    /// Up to where its last stream has read the log.
    pub read: u64,
    /// Up to where any of its streams has read the log, or its client has confirmed.
    pub(crate) reached: u64,
    /// How many bytes its streams have sent, and how many transactions.
    pub sent: u64,
    pub transactions: u64,
    /// How many chunks of its last stream are free.
    pub free_chunks: usize,
    /// The frame that is being sent.
    pub(crate) counter: CommitCounter,
    /// When its client's last status came, on the clock.
    pub heard: Option<Duration>,
    pub lag: FlushLag,
    pub control: StreamControl,
    /// The connection of its stream was cut on purpose.
    pub(crate) was_cut: bool,
    /// Transactions in progress filled the chunks of one of its streams.
    pub(crate) was_full: bool,
    /// A tenth of its stream's chunks isn't free.
    pub(crate) is_short: bool,
    pub keeping: SlotKeeping,
    /// How many slots were at this place, this one included.
    pub(crate) number: u64,
}

/// Whether a stream counts as short of chunks: from a tenth that is free on, until a half is.
pub(crate) fn is_short(free: usize, chunks: usize, was_short: bool) -> bool {
    let enough = if was_short { chunks / 2 } else { chunks / 10 };
    free < enough
}

impl SlotSnapshot {
    pub(crate) fn nothing() -> Self {
        SlotSnapshot {
            is_open: false,
            name: None,
            confirmed: 0,
            latch: None,
            read: 0,
            reached: 0,
            sent: 0,
            transactions: 0,
            free_chunks: 0,
            counter: CommitCounter::new(),
            heard: None,
            lag: FlushLag::new(),
            control: StreamControl::loose(),
            was_cut: false,
            was_full: false,
            is_short: false,
            keeping: SlotKeeping::Nothing,
            number: 0,
        }
    }

    /// Of a slot that was made, the one of this number at its place.
    pub(crate) fn opened(name: Option<Text>, confirmed: u64, number: u64) -> Self {
        let mut known = SlotSnapshot::nothing();
        known.number = number;
        known.is_open = true;
        known.name = name;
        known.confirmed = confirmed;
        known.reached = confirmed;
        known.keeping = SlotKeeping::Reserved;
        known
    }

    /// A copy, for whoever looks. None: no slot is there. `AllocError` where memory for it is refused.
    pub(crate) fn copy(&self, alloc: Global) -> Result<Option<Self>, AllocError> {
        if !self.is_open {
            return Ok(None);
        }
        let name = match &self.name {
            Some(name) => Some(Text::copy_of(alloc, name.as_str())?),
            None => None,
        };
        Ok(Some(SlotSnapshot {
            is_open: true,
            name,
            confirmed: self.confirmed,
            latch: self.latch,
            read: self.read,
            reached: self.reached,
            sent: self.sent,
            transactions: self.transactions,
            free_chunks: self.free_chunks,
            counter: self.counter,
            heard: self.heard,
            lag: self.lag,
            control: self.control,
            was_cut: self.was_cut,
            was_full: self.was_full,
            is_short: self.is_short,
            keeping: self.keeping,
            number: self.number,
        }))
    }

    /// What of it outlives its server. None: no slot is there. `AllocError` where memory for it is refused.
    pub(crate) fn standing(&self, alloc: Global) -> Result<Option<SlotStanding>, AllocError> {
        let name = match (&self.name, self.keeping) {
            (_, SlotKeeping::Nothing) | (None, _) => return Ok(None),
            (Some(name), _) => Text::copy_of(alloc, name.as_str())?,
        };
        Ok(Some(SlotStanding {
            number: self.number,
            name,
            confirmed: self.confirmed,
            is_lost: self.keeping == SlotKeeping::Lost,
        }))
    }
}
