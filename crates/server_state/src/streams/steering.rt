//! How streams are steered on purpose, as tests of their clients need it.

use crate::fault::SteerFault;
use crate::server_state::ServerState;
use connections::{SlotMonitor, StreamCommand};
use shared_log::LogName;
use slots::SlotName;
use std::sync::Wait;
use std::time::{Clock, Duration};

impl<L: LogName + SlotName> ServerState<L> {
    /// Waits until the slot of this name is confirmed at this position or further, for so long at most, and answers whether it is.
    /// `Missing` (L1) where there is none, or it is dropped, or the server ends meanwhile.
    pub fn await_confirmed<R: Wait + Clock>(
        &self,
        rt: &R,
        slot: &str,
        position: u64,
        patience: Duration,
    ) -> Result<bool, SteerFault> {
        let monitor = self.monitor_of(rt, slot)?;
        monitor
            .await_confirmed(rt, position, patience)
            .ok_or(SteerFault::Missing)
    }

    /// The same until a stream of the slot runs; `Missing` (L1) as there.
    pub fn await_stream<R: Wait + Clock>(
        &self,
        rt: &R,
        slot: &str,
        patience: Duration,
    ) -> Result<bool, SteerFault> {
        let monitor = self.monitor_of(rt, slot)?;
        monitor
            .await_stream(rt, patience)
            .ok_or(SteerFault::Missing)
    }

    /// Nothing of the slot's stream is written any more, nor of those that come, until it is let go; statuses are read all the same.
    /// `Missing` (L1) where there is no such slot.
    pub fn hold_stream<R: Wait>(&self, rt: &R, slot: &str) -> Result<(), SteerFault> {
        self.steer(rt, slot, StreamCommand::Hold)
    }

    /// The slot's stream goes on. `Missing` (L1) where there is no such slot.
    pub fn resume_stream<R: Wait>(&self, rt: &R, slot: &str) -> Result<(), SteerFault> {
        self.steer(rt, slot, StreamCommand::LetGo)
    }

    /// A keepalive asks the client of the slot's stream for an answer: at once, or as its next stream begins. `Missing` (L1) where
    /// there is no such slot.
    pub fn ask_stream<R: Wait>(&self, rt: &R, slot: &str) -> Result<(), SteerFault> {
        self.steer(rt, slot, StreamCommand::Ask)
    }

    /// Cuts the connection of the slot's stream, or of its next one, after so many more bytes: in the middle of a frame, where they
    /// end in one. After none it is cut at once, between two frames. The stream after that isn't cut. `Missing` (L1) where there is
    /// no such slot.
    pub fn cut_stream<R: Wait>(&self, rt: &R, slot: &str, bytes: u64) -> Result<(), SteerFault> {
        self.steer(rt, slot, StreamCommand::Cut(bytes))
    }

    fn steer<R: Wait>(&self, rt: &R, slot: &str, command: StreamCommand) -> Result<(), SteerFault> {
        if let Some(latch) = self.monitor_of(rt, slot)?.steer(rt, command) {
            self.tell_work(rt, latch);
        }
        Ok(())
    }

    fn monitor_of<R: Wait>(&self, rt: &R, slot: &str) -> Result<&SlotMonitor, SteerFault> {
        let place = self.place_of(rt, slot);
        self.monitor_at(place).ok_or(SteerFault::Missing)
    }
}
