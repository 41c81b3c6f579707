//! What stands between the two threads of a connection.

use crate::fault::ConnectionEnd;
use crate::inbox::{Inbox, Work};
use crate::socket::reading::left_until;
use bytes::BytesMut;
use copyboth::clock_now;
use server::Phase;
use std::alloc::Global;
use std::mem;
use std::sync::{Condvar, Mutex, MutexGuard, Wait};
use std::time::{Clock, Duration};

/// The inbox of a connection, and the stream of a START that isn't written yet, whatever a stream is. It isn't `Drop`: `end` ends it.
pub struct ConnectionMailbox<S> {
    alloc: Global,
    inbox: Mutex<Inbox>,
    begun: Mutex<Option<S>>,
    /// There is something to be written, or nothing more comes.
    filled: Condvar,
    /// The writing thread has taken what was to be said, or ended a stream, or writes no more.
    taken: Condvar,
}

impl<S> ConnectionMailbox<S> {
    pub fn new(alloc: Global) -> Self {
        ConnectionMailbox {
            alloc,
            inbox: Mutex::new(Inbox::new(alloc)),
            begun: Mutex::new(None),
            filled: Condvar::new(),
            taken: Condvar::new(),
        }
    }

    // ---- the reading thread

    /// Has these words said, after those before, and the conversation at this phase then. `NoStartup` where those before aren't
    /// written by this time on the clock, since no startup has come to its end then; `Lost` where the clock can't be read for that,
    /// `Client` where nothing is written any more.
    pub fn say<R: Wait + Clock>(
        &self,
        rt: &R,
        said: BytesMut,
        phase: Phase,
        until: Option<Duration>,
    ) -> Result<(), ConnectionEnd> {
        let mut inbox = self.room(rt, until)?;
        if inbox.is_broken() {
            return Err(ConnectionEnd::Client);
        }
        inbox.say(said, phase);
        drop(inbox);
        self.filled.notify_all();
        Ok(())
    }

    /// Waits until the words before were taken, or nothing is written any more.
    fn room<R: Wait + Clock>(
        &self,
        rt: &R,
        until: Option<Duration>,
    ) -> Result<MutexGuard<'_, Inbox>, ConnectionEnd> {
        let Some(until) = until else {
            return Ok(
                self.taken
                    .wait_while(rt, self.inbox.lock(rt), |inbox| inbox.is_full()),
            );
        };
        let left = left_until(rt, until)?;
        let (inbox, waited) = self
            .taken
            .wait_timeout_while(rt, self.inbox.lock(rt), left, |inbox| inbox.is_full());
        if waited.timed_out() {
            return Err(ConnectionEnd::NoStartup);
        }
        Ok(inbox)
    }

    /// The conversation is at this phase, and nothing is to be said.
    pub fn pass<R: Wait>(&self, rt: &R, phase: Phase) {
        let mut inbox = self.inbox.lock(rt);
        inbox.pass(phase);
        drop(inbox);
        self.filled.notify_all();
    }

    /// A status came. It answers whether that is the first thing to do since all was taken.
    pub fn flush<R: Wait>(&self, rt: &R, position: u64, ask: bool) -> bool {
        self.inbox.lock(rt).flush(position, ask)
    }

    /// Nothing came for long.
    pub fn fall_silent<R: Wait>(&self, rt: &R) {
        self.inbox.lock(rt).fall_silent();
    }

    /// A stream has begun. The words that say so come after. It answers one that began before and was never written.
    pub fn begin<R: Wait>(&self, rt: &R, stream: S) -> Option<S> {
        let mut place = self.begun.lock(rt);
        let before = mem::replace(&mut *place, Some(stream));
        let _ = MutexGuard::unlock(place);
        before
    }

    /// Waits until the stream that stops has ended. `Client` where nothing is written any more.
    pub fn await_end<R: Wait>(&self, rt: &R) -> Result<(), ConnectionEnd> {
        let mut inbox = self
            .taken
            .wait_while(rt, self.inbox.lock(rt), |inbox| inbox.is_ending());
        if inbox.is_broken() {
            return Err(ConnectionEnd::Client);
        }
        inbox.go_on();
        Ok(())
    }

    // ---- the writing thread

    /// Waits until a connection without a stream has something to be written, or nothing more comes.
    pub fn await_words<R: Wait>(&self, rt: &R) {
        drop(
            self.filled
                .wait_while(rt, self.inbox.lock(rt), |inbox| inbox.is_quiet()),
        );
    }

    /// Waits until the client of a stream tells nothing more of it: its side is closed, or its CopyDone came.
    pub fn await_last_status<R: Wait>(&self, rt: &R) {
        drop(
            self.filled
                .wait_while(rt, self.inbox.lock(rt), |inbox| inbox.is_streaming()),
        );
    }

    /// Waits until nothing more comes from the client.
    pub fn await_close<R: Wait>(&self, rt: &R) {
        drop(
            self.filled
                .wait_while(rt, self.inbox.lock(rt), |inbox| !inbox.is_closed()),
        );
    }

    /// Whether nothing more comes from the client.
    pub fn is_closed<R: Wait>(&self, rt: &R) -> bool {
        self.inbox.lock(rt).is_closed()
    }

    /// Whether what the client of a stream sends is read as it comes.
    pub fn is_heard<R: Wait>(&self, rt: &R) -> bool {
        self.inbox.lock(rt).is_heard()
    }

    /// The inbox, which has been told the time.
    fn inbox_now<R: Wait + Clock>(&self, rt: &R) -> MutexGuard<'_, Inbox> {
        let mut inbox = self.inbox.lock(rt);
        let clock = clock_now(rt, inbox.clock());
        inbox.tell_time(clock);
        inbox
    }

    /// What the clock says, in microseconds since 2000-01-01, or, where it can't be read, what it said last.
    pub fn clock<R: Wait + Clock>(&self, rt: &R) -> i64 {
        self.inbox_now(rt).clock()
    }

    /// Takes all that is there to do.
    pub fn take<R: Wait + Clock>(&self, rt: &R) -> Work {
        let mut inbox = self.inbox_now(rt);
        let work = inbox.take(self.alloc);
        drop(inbox);
        self.taken.notify_all();
        work
    }

    /// The stream that has begun.
    pub fn take_stream<R: Wait>(&self, rt: &R) -> Option<S> {
        let mut place = self.begun.lock(rt);
        let stream = mem::replace(&mut *place, None);
        let _ = MutexGuard::unlock(place);
        stream
    }

    /// The stream has ended.
    pub fn end_stream<R: Wait>(&self, rt: &R) {
        let mut inbox = self.inbox.lock(rt);
        inbox.end();
        drop(inbox);
        self.taken.notify_all();
    }

    /// No more could be written, for this cause.
    pub fn end_early<R: Wait>(&self, rt: &R, end: ConnectionEnd) {
        self.inbox.lock(rt).end_early(end);
    }

    /// Nothing is written any more.
    pub fn break_off<R: Wait>(&self, rt: &R) {
        let mut inbox = self.inbox.lock(rt);
        inbox.break_off();
        drop(inbox);
        self.taken.notify_all();
    }

    // ---- after both

    /// The stream that was never written, and why no more could be written, if it could not.
    pub fn end(self) -> (Option<S>, Option<ConnectionEnd>) {
        let ConnectionMailbox {
            alloc: _,
            inbox,
            begun,
            filled: _,
            taken: _,
        } = self;
        (begun.into_inner(), inbox.into_inner().early())
    }
}
