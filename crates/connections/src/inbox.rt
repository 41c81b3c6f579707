//! What a connection's reading thread leaves for its writing thread.

ghost use Rattle.std.specs.Prelude.{◌≡◌, ◌++◌, ◌==◌, ◌↔◌, ◌&&◌, [], Some, None, length, max, not, true, false};
ghost use Rattle.connections.specs.Inboxes.{asked_after, first_cause, flushed_after};

use crate::fault::ConnectionEnd;
use bytes::BytesMut;
use server::Phase;
use std::alloc::Global;
use std::mem;

/// What is to be said, how far the client has flushed, and how far the conversation is; and what the writing thread has to
/// tell of itself.
#[derive(Drop)]
pub struct Inbox {
    said: BytesMut,
    /// The greatest position of the statuses that came.
    flushed: Option<u64>,
    /// How many of them asked for an answer.
    asked: u32,
    /// Nothing came for so long that the client is to be asked for an answer.
    is_silent: bool,
    phase: Phase,
    /// The stream has ended.
    has_ended: bool,
    /// Nothing is written any more.
    is_broken: bool,
    /// Why no more could be written.
    early: Option<ConnectionEnd>,
    /// What the clock said last.
    clock: i64,
}

/// What the writing thread takes of it.
#[derive(Drop)]
pub struct Work {
    pub said: BytesMut,
    pub flushed: Option<u64>,
    pub asked: u32,
    pub is_silent: bool,
    pub phase: Phase,
    /// What the clock said when it was taken, in microseconds since 2000-01-01.
    pub clock: i64,
    /// How many records of the log the stream may have read after it: none, before whoever takes it says more.
    pub readable: usize,
}

impl Work {
    /// Whether the stream goes on, and nothing else is to be said.
    pub fn lets_stream(&self) -> bool {
        self.phase == Phase::Streaming && self.said.is_empty()
    }
}

impl Inbox {
    pub fn new(alloc: Global) -> Self {
        Inbox {
            said: BytesMut::new(alloc),
            flushed: None,
            asked: 0,
            is_silent: false,
            phase: Phase::Startup,
            has_ended: false,
            is_broken: false,
            early: None,
            clock: 0,
        }
    }

    /// The words that are to be said next, and the phase after them.
    pub fn say(&mut self, said: BytesMut, phase: Phase)
        ensures { self.new ≡ record self.old { said = said; phase = phase } }
    {
        self.said = said;
        self.phase = phase;
    }

    /// The conversation goes on without words.
    pub fn pass(&mut self, phase: Phase)
        ensures { self.new ≡ record self.old { phase = phase } }
    {
        self.phase = phase;
    }

    /// A status came. It answers whether that is the first thing to do since all was taken.
    pub fn flush(&mut self, position: u64, ask: bool) -> bool
        ensures status { self.new
            ≡ record self.old {
              flushed = flushed_after self.old.flushed position;
              asked = asked_after self.old.asked ask;
            } }
    {
        let is_first = self.flushed.is_none() && self.asked == 0;
        let before = self.flushed.unwrap_or(0);
        self.flushed = Some(position.max(before));
        if ask {
            self.asked = self.asked.saturating_add(1);
        }
        is_first
    }

    /// Nothing came for long.
    pub fn fall_silent(&mut self)
        ensures { self.new ≡ record self.old { is_silent = true } }
    {
        self.is_silent = true;
    }

    /// The clock says this now.
    pub fn tell_time(&mut self, clock: i64)
        ensures { self.new ≡ record self.old { clock = clock } }
    {
        self.clock = clock;
    }

    /// What the clock said last.
    pub fn clock(&self) -> i64
        ensures { result ≡ self.now.clock }
    {
        self.clock
    }

    /// Takes all that is there for the writing thread.
    pub fn take(&mut self, alloc: Global) -> Work
        ensures work { result
            ≡ record {
              said = self.old.said;
              flushed = self.old.flushed;
              asked = self.old.asked;
              is_silent = self.old.is_silent;
              phase = self.old.phase;
              clock = self.old.clock;
              readable = 0;
            } }
        ensures empty { self.new.said.items ≡ [] }
        ensures rest { (self.new.flushed ≡ None) × (self.new.asked ≡ 0)
            × (self.new.is_silent ≡ false) × (self.new.phase ≡ self.old.phase) }
        ensures same { (self.new.has_ended ≡ self.old.has_ended)
            × (self.new.is_broken ≡ self.old.is_broken) × (self.new.clock ≡ self.old.clock) }
    {
        let said = mem::replace(&mut self.said, BytesMut::new(alloc));
        let flushed = mem::replace(&mut self.flushed, None);
        let asked = mem::replace(&mut self.asked, 0);
        let is_silent = mem::replace(&mut self.is_silent, false);
        Work {
            said,
            flushed,
            asked,
            is_silent,
            phase: self.phase,
            clock: self.clock,
            readable: 0,
        }
    }

    /// Whether a writing thread without a stream has nothing to do.
    pub fn is_quiet(&self) -> bool {
        self.said.is_empty() && self.phase != Phase::Closed
    }

    /// Whether the connection is over for the reading thread.
    pub fn is_closed(&self) -> bool
        ensures { (result ≡ true) ↔ (self.now.phase ≡ Phase.Closed) }
    {
        self.phase == Phase::Closed
    }

    /// Whether the client of a stream may still send statuses.
    pub fn is_streaming(&self) -> bool
        ensures { (result ≡ true) ↔ (self.now.phase ≡ Phase.Streaming) }
    {
        self.phase == Phase::Streaming
    }

    /// Whether what the client of a stream sends is read as it comes, so that its silence is noticed: nothing waits to be said.
    pub fn is_heard(&self) -> bool
        ensures { (result ≡ true)
            ↔ ((self.now.phase ≡ Phase.Streaming) × (self.now.said.items ≡ [])) }
    {
        self.said.is_empty() && self.phase == Phase::Streaming
    }

    /// Whether the reading thread has to wait before it says more.
    pub fn is_full(&self) -> bool {
        !self.said.is_empty() && !self.is_broken
    }

    /// Whether the reading thread has to wait for the stream's end.
    pub fn is_ending(&self) -> bool {
        !self.has_ended && !self.is_broken
    }

    pub fn is_broken(&self) -> bool
        ensures { result ≡ self.now.is_broken }
    {
        self.is_broken
    }

    /// The stream has ended.
    pub fn end(&mut self)
        ensures { self.new ≡ record self.old { has_ended = true } }
    {
        self.has_ended = true;
    }

    /// The reading thread has seen that it has ended.
    pub fn go_on(&mut self)
        ensures { self.new ≡ record self.old { has_ended = false } }
    {
        self.has_ended = false;
    }

    /// No more could be written; the first cause stays.
    pub fn end_early(&mut self, end: ConnectionEnd)
        ensures { self.new ≡ record self.old { early = Some (first_cause self.old.early end) } }
    {
        self.early = Some(self.early.unwrap_or(end));
    }

    /// Why no more could be written. None: nothing has failed.
    pub fn early(&self) -> Option<ConnectionEnd>
        ensures { result ≡ self.now.early }
    {
        self.early
    }

    /// Nothing is written any more.
    pub fn break_off(&mut self)
        ensures { self.new ≡ record self.old { is_broken = true } }
    {
        self.is_broken = true;
    }
}
