//! Why an event did not happen.

ghost use Rattle.std.specs.Prelude.{◌≡◌};
ghost use Rattle.schedule.specs.declared.fault.WorldFault.TheVariants.{Memory};

use crate::event::{ConnectionStep, Event, SessionStep};
use std::alloc::{AllocError, AllocFailed};
use std::fmt;
use std::fmt::{Display, Formatter, Write};
use thiserror::Error;

/// Why an event did not happen at all. It changed nothing.
#[derive(Clone, Copy, Debug, PartialEq, Eq, Error)]
pub enum WorldFault {
    #[error("V1: no such event, or not now")]
    BadEvent,
    #[error("V2: out of memory")]
    Memory,
    #[error("V3: the log lets no reader in")]
    NoEntry,
}

impl From<AllocError> for WorldFault {
    ghost from_gives = { λ _ e. e ≡ Memory };

    fn from(_e: AllocError) -> WorldFault {
        WorldFault::Memory
    }
}

impl<T: Drop> From<AllocFailed<T>> for WorldFault {
    ghost from_gives = { λ _ e. e ≡ Memory };

    fn from(_e: AllocFailed<T>) -> WorldFault {
        WorldFault::Memory
    }
}

/// An event of a schedule that was V1 where it stood. Its text says why.
#[derive(Debug, Drop)]
pub struct BadEvent {
    /// The line of the schedule, from 1.
    pub line: usize,
    pub event: Event,
}

impl BadEvent {
    /// Why, as what stands before the name and after it.
    fn why(&self) -> (&'static str, &str, &'static str) {
        match &self.event {
            Event::Session(name, SessionStep::Begin) => {
                ("transaction ", name.as_str(), " is in progress")
            }
            Event::Session(name, _) => ("no transaction ", name.as_str(), ""),
            Event::Note(_, _) => ("no note can be written", "", ""),
            Event::Connection(name, ConnectionStep::Start(_, _, _)) => {
                ("connection ", name.as_str(), " has a sender already")
            }
            Event::Connection(name, ConnectionStep::Ack) => (
                "connection ",
                name.as_str(),
                " has no sender, or no status waits",
            ),
            Event::Connection(name, _) => ("connection ", name.as_str(), " has no sender"),
            Event::Slot(name) => ("", name.as_str(), " is no name of a slot"),
            Event::Forget | Event::Front => ("the log can't be asked", "", ""),
        }
    }
}

impl Display for BadEvent {
    fn fmt<W: Write>(&self, f: &mut Formatter<W>) -> Result<(), fmt::Error> {
        let (front, name, rest) = self.why();
        write!(f, "line {}: V1: {front}{name}{rest}", self.line)
    }
}
