//! Where the work of a stream comes from while it is written: from its client, from those that steer it, and from the server's end.

use crate::connection::write_loop::{WriteLoop, break_off};
use crate::stream::granting::{await_stream, inform};
use crate::stream::streaming::Stream;
use crate::stream::work_backend::WorkBackend;
use bytes::BytesMut;
use connections::{ServerObserver, SlotMonitor, StreamError, Work, say_stream_error};
use frames::{Back, write_back};
use server::Phase;
use shared_log::LogName;
use slots::SlotName;
use std::net::Shutdown;
use std::sync::Wait;
use std::time::Clock;

/// The connection of a stream, and the monitor of its slot.
#[derive(Drop)]
pub(crate) struct StreamBackend<'h, L: LogName + SlotName, R: Wait, G: ServerObserver> {
    pub write: &'h WriteLoop<'h, L, R, G>,
    pub monitor: &'h SlotMonitor,
}

impl<'h, L: LogName + SlotName, R: Wait + Clock, G: ServerObserver> WorkBackend<L>
    for StreamBackend<'h, L, R, G> {
    // The reading thread fills the mailbox in between, so of a call nothing is told.
    ghost told = { λ old work new. Unit {0} };

    fn next(&mut self, stream: &mut Stream<L>) -> Work {
        let (write, monitor) = (self.write, self.monitor);
        report(write, monitor, stream);
        if monitor.is_cut(write.rt) {
            inform(write.rt, write.server_state, stream);
        } else {
            await_stream(write.rt, write.server_state, write.mailbox, monitor, stream);
        }
        let mut work = write.mailbox.take(write.rt);
        work.readable = write.server_state.readable();
        steer(write, monitor, &mut work);
        work
    }

    fn last(&mut self) -> Work {
        let write = self.write;
        if write.server_state.is_ending() {
            // Closed at once, the connection would be reset by a status that still comes, and what was sent be lost.
            let _ = write.socket.shutdown(Shutdown::Write);
            write.mailbox.await_last_status(write.rt);
        }
        break_off(write);
        write.mailbox.await_close(write.rt);
        write.mailbox.take(write.rt)
    }
}

/// Tells the monitor of a stream how far it is, and the observer where transactions in progress begin to fill its chunks.
pub(crate) fn report<L: LogName + SlotName, R: Wait + Clock, G: ServerObserver>(
    write: &WriteLoop<'_, L, R, G>,
    monitor: &SlotMonitor,
    stream: &Stream<L>,
) {
    let (free, chunks) = (stream.free_chunks(), write.server_state.settings.chunks);
    let runs_short = monitor.report(
        write.rt,
        stream.position(),
        stream.confirmed(),
        free,
        chunks as usize,
    );
    if runs_short {
        write.observer.short_of_chunks(write.number, free, chunks);
    }
}

/// Adds to the work of a stream what it is told beside it. Where its slot was given up, it ends with that. Where the server ends, what is left is sent, and CopyDone after it.
fn steer<L: LogName + SlotName, R: Wait + Clock, G: ServerObserver>(
    write: &WriteLoop<'_, L, R, G>,
    monitor: &SlotMonitor,
    work: &mut Work,
) {
    let rt = write.rt;
    if work.flushed.is_some() {
        monitor.hear(rt, rt.monotonic().ok());
    }
    if monitor.take_ask(rt) {
        work.is_silent = true;
    }
    if monitor.is_lost(rt) {
        work.said.clear();
        let _ = say_stream_error(
            write.server_state.alloc,
            StreamError::Removed,
            &mut work.said,
        );
        work.phase = Phase::Closed;
    } else if monitor.take_cut(rt) {
        work.said.clear();
        work.phase = Phase::Closed;
    } else if write.server_state.is_ending() && work.said.is_empty() {
        let is_said = write_back(&Back::CopyDone, &mut work.said).is_ok();
        work.phase = if is_said {
            Phase::Streaming
        } else {
            Phase::Closed
        };
    }
}
