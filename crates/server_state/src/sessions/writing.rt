//! Calls of the publisher by whoever keeps sessions of its own.

ghost use Rattle.std.specs.Prelude.{◌≡◌};
ghost use Rattle.server_state.specs.Writing.{news_left};

use crate::disk::disk_fault::DiskFault;
use crate::server_state::ServerState;
use crate::streams::spreading::Unheard;
use shared_log::LogName;
use slots::SlotName;
use std::sync::{MutexGuard, Wait};
use std::time::Clock;
use txlog::{Publisher, Receipt};

/// The publisher, held for a call. It isn't `Drop`: `end` lets it go.
pub struct Writing<'h, L: LogName + SlotName, R: Wait> {
    rt: &'h R,
    server_state: &'h ServerState<L>,
    pub publisher: MutexGuard<'h, Publisher<L>>,
}

/// What a call of the publisher leaves for streams: nothing, the log's end after an abort or a note, or a commit's receipt.
pub enum Left<L: LogName> {
    Nothing,
    Abort,
    Note,
    Commit(Receipt<L>),
}

impl<L: LogName + SlotName> ServerState<L> {
    /// Holds the publisher, once there is room for a record where there can be.
    pub fn write<'h, R: Wait>(&'h self, rt: &'h R) -> Writing<'h, L, R> {
        let mut publisher = self.publisher.lock(rt);
        self.make_room(rt, &mut *publisher);
        Writing {
            rt,
            server_state: self,
            publisher,
        }
    }
}

impl<'h, L: LogName + SlotName, R: Wait + Clock> Writing<'h, L, R> {
    /// Lets the publisher go, and has streams read on after what was left. Where the log is kept on a disk, it waits until a commit or a
    /// note is there; it answers why that can't be said.
    pub fn end(self, left: Left<L>) -> Option<DiskFault> {
        let Writing {
            rt,
            server_state,
            publisher,
        } = self;
        let end = publisher.end();
        let is_awaited = is_awaited(&left);
        let unheard = unheard_of(left, end);
        server_state.let_go(rt, publisher);
        if let Some(unheard) = unheard {
            server_state.tell(rt, unheard);
        }
        if is_awaited {
            server_state.await_kept(rt, end)
        } else {
            None
        }
    }
}

/// Whether who did it waits until it is on the disk.
fn is_awaited<L: LogName>(left: &Left<L>) -> bool {
    matches!(left, Left::Note | Left::Commit(_))
}

/// What streams are to be told of it, in a log that ends there.
fn unheard_of<L: LogName>(left: Left<L>, end: u64) -> Option<Unheard<L>>
    ensures { result ≡ news_left left end }
{
    match left {
        Left::Nothing => None,
        Left::Abort | Left::Note => Some(Unheard::of_end(end)),
        Left::Commit(receipt) => Some(Unheard::of_commit(receipt)),
    }
}
