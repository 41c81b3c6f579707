//! The end of a server: what is held goes out, and then its connections are over.

use crate::server_state::ServerState;
use shared_log::LogName;
use slots::SlotName;
use std::sync::Wait;

impl<L: LogName + SlotName> ServerState<L> {
    /// From now on no connection is served but those that are. Each stream sends what is held and what the log has, and CopyDone;
    /// once its client tells nothing more its connection is closed, and each other one at once. `serve` returns once its listener
    /// gave one more socket and all connections have ended.
    pub fn shut_down<R: Wait>(&self, rt: &R) {
        self.sockets.end(rt);
        self.end_crowd(rt);
        for monitor in &self.monitors {
            monitor.close(rt);
        }
        self.wake_all(rt);
        self.end_awaiting(rt);
    }

    /// Each stream looks for work.
    fn wake_all<R: Wait>(&self, rt: &R) {
        for latch in &self.latches {
            latch.tell_work(rt);
        }
    }

    /// From now on no connection is heard out that is too many.
    pub fn end_crowd<R: Wait>(&self, rt: &R) {
        self.turned_away.end(rt);
    }

    /// Whether `shut_down` was called.
    pub fn is_ending(&self) -> bool {
        self.sockets.is_ending()
    }

    /// Whether no connection is served.
    pub fn is_deserted<R: Wait>(&self, rt: &R) -> bool {
        self.sockets.is_empty(rt)
    }

    /// Closes the connections that are served, whatever is still held for them.
    pub fn cut_off<R: Wait>(&self, rt: &R) {
        self.sockets.cut_off(rt);
        self.turned_away.cut_off(rt);
    }
}
