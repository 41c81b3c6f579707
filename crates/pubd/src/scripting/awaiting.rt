//! Lines that wait for a stream.

use super::outcome::Done;
use super::refusal::{ScriptRefusal, Unmet};
use super::step::{Await, Until};
use crate::running::ending::ListenerHandles;
use hub::{Hub, SteerFault};
use shared_log::LogName;
use slots::SlotName;
use std::sync::Wait;
use std::thread;
use std::time::{Clock, Duration, Instant};

/// For how many milliseconds a line waits before it looks whether it still may.
const MOMENT: u64 = 20;

/// A line that waits.
#[derive(Clone, Copy)]
pub(crate) struct Waiting<'a> {
    line: &'a Await,
    /// None: the clock can't be read.
    begun: Option<Instant>,
}

impl<'a> Waiting<'a> {
    pub(crate) fn new<R: Clock>(rt: &R, line: &'a Await) -> Self {
        Waiting {
            line,
            begun: Instant::now(rt).ok(),
        }
    }

    /// Waits for a moment, and answers what has come of the line. None: it waits on.
    pub(crate) fn turn<L, R>(
        &self,
        rt: &R,
        hub: &Hub<L>,
        listeners: &ListenerHandles,
    ) -> Option<Done>
    where
        L: LogName + SlotName,
        R: Wait + Clock,
    {
        let are_over = listeners.are_connections_over();
        match self.look(rt, hub) {
            Ok(true) => Some(Done::Steered),
            Err(_) => Some(Done::Refused(ScriptRefusal::NoSlot)),
            Ok(false) if hub.is_ending() => Some(unmet(Unmet::Ending)),
            Ok(false) if are_over => Some(unmet(Unmet::NoConnections)),
            Ok(false) if self.is_late(rt) => Some(unmet(Unmet::Late)),
            Ok(false) => None,
        }
    }

    /// Whether what is awaited has come. A slot whose stream is awaited may come later; so a server that ends has none.
    fn look<L, R>(&self, rt: &R, hub: &Hub<L>) -> Result<bool, SteerFault>
    where
        L: LogName + SlotName,
        R: Wait + Clock,
    {
        let slot = self.line.slot.as_str();
        let moment = Duration::from_millis(MOMENT);
        let looked = match self.line.until {
            Until::Confirmed(position) => hub.await_confirmed(rt, slot, position, moment),
            Until::Stream => hub.await_stream(rt, slot, moment),
        };
        match (looked, self.line.until) {
            (Err(SteerFault::Missing), _) if hub.is_ending() => Ok(false),
            (Err(SteerFault::Missing), Until::Stream) => {
                thread::sleep(rt, moment);
                Ok(false)
            }
            _ => looked,
        }
    }

    fn is_late<R: Clock>(&self, rt: &R) -> bool {
        let (Some(patience), Some(begun)) = (self.line.patience, self.begun) else {
            return false;
        };
        match begun.elapsed(rt) {
            Ok(time) => patience <= time,
            Err(_) => true,
        }
    }
}

/// What comes of a line whose wait is over for this.
pub(crate) fn unmet(why: Unmet) -> Done {
    Done::Refused(ScriptRefusal::Unmet(why))
}
