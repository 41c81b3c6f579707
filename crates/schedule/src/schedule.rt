//! Schedules: texts of one event a line.

ghost use Rattle.std.specs.Prelude.{◌≡◌, length, vec_len};

use crate::event::Event;
use crate::fault::{BadEvent, WorldFault};
use std::alloc::Global;
use thiserror::Error;

/// The events of a schedule and, at the same place, the number of the line on which each stands, from 1.
#[derive(Drop)]
pub struct Schedule {
    events: Vec<Event>,
    lines: Vec<usize>,
    ghost paired: { vec_len events ≡ vec_len lines },
}

/// The line of a schedule that was not read, and why.
#[derive(Clone, Copy, Debug, PartialEq, Eq, Error)]
#[error("line {line}: {fault}")]
pub struct ScheduleFault {
    pub line: usize,
    pub fault: WorldFault,
}

impl Schedule {
    /// The events of all lines. Empty lines and lines that begin with `#` are passed over, but counted. The first line that is
    /// no event is refused, with its number: `BadEvent` (V1), or `Memory` (V2). Then no event is given.
    pub fn parse(alloc: Global, text: &str) -> Result<Schedule, ScheduleFault> {
        let mut schedule = Schedule {
            events: Vec::new(alloc),
            lines: Vec::new(alloc),
        };
        for (line, content) in (1..usize::MAX).zip(text.split('\n')) {
            if content.is_empty() || content.starts_with('#') {
                continue;
            }
            if let Err(fault) = schedule.add(alloc, line, content) {
                return Err(ScheduleFault { line, fault });
            }
        }
        Ok(schedule)
    }

    fn add(&mut self, alloc: Global, line: usize, content: &str) -> Result<(), WorldFault> {
        self.lines.reserve(1)?;
        self.events.reserve(1)?;
        let event = Event::parse(alloc, content)?;
        self.events.push(event).unwrap();
        self.lines.push(line).unwrap();
        Ok(())
    }

    pub fn events(&self) -> &[Event]
        ensures { result.now ≡ self.now.events.items }
    {
        self.events.as_slice()
    }

    /// The event at this place, with its line, as one that could not happen there. None where no event has this place.
    pub fn into_bad_event(self, place: usize) -> Option<BadEvent> {
        let Schedule { mut events, lines } = self;
        let line = *lines.get(place)?;
        Some(BadEvent {
            line,
            event: events.swap_remove(place),
        })
    }

    /// The numbers of the lines, one for each event.
    pub fn lines(&self) -> &[usize]
        ensures value { result.now ≡ self.now.lines.items }
        ensures paired { length result.now ≡ length self.now.events.items }
    {
        self.lines.as_slice()
    }
}
