//! What the connections of a publisher are served from, for whoever runs it.

ghost use Rattle.std.specs.Prelude.{◌≡◌, IfOk};
ghost use Rattle.server_state.specs.Ending.{HasBegun};

use crate::listener_handle::ListenerHandle;
use connections::User;
use pqformat::Items;
use segments::{KeepFault, Segment};
use server_state::{
    DiskFault, HubBuilder, HubFault, HubStatus, NoteFault, ServerState, SteerFault, Transaction,
    Writing,
};
use shared_log::LogName;
use slots::SlotName;
use sqlite_disk::Disk;
use std::alloc::{AllocError, Global};
use std::sync::Wait;
use std::thread;
use std::time::{Clock, Duration};
use txlog::SessionFault;

/// How long the connections have to take what is left for them, before they are cut off: so many rests of so many milliseconds.
const RESTS: u32 = 200;

const REST: u64 = 50;

/// What the connections of a publisher share: its log and rows, its slots, its publications, and what commits and notes tell.
///
/// `HubBuilder::new` and `Hub::open` make one, and `serve` serves connections from it. It isn't `Drop`: `close` ends it.
pub struct Hub<L: LogName + SlotName> {
    pub(crate) server_state: ServerState<L>,
}

impl<L: LogName + SlotName> Hub<L> {
    /// A hub with an empty log and no slots; or one whose log goes on by entries, with the slots that it had. `Memory` where memory is
    /// refused, `Recovery` and `Slots` where it doesn't go on: then nothing is left of it.
    pub fn open<R: Wait>(rt: &R, opened: HubBuilder) -> Result<Self, HubFault>
        requires log { opened.log.history.seen.book ≡ L.book }
        requires slots { opened.slots.first.table_id ≡ L.table }
    {
        match ServerState::open(rt, opened) {
            Ok(server_state) => Ok(Hub { server_state }),
            Err(fault) => Err(fault),
        }
    }

    /// Ends the log. Transactions in progress are left as they are.
    pub fn close<R: Wait>(self, rt: &R) {
        let Hub { server_state } = self;
        server_state.close(rt);
    }

    /// Where its memory comes from.
    pub fn alloc(&self) -> Global {
        self.server_state.alloc
    }

    // ---- what is written

    /// Holds the publisher, once there is room for a record where there can be, for whoever keeps sessions of its own. A service writes
    /// by `transaction` and `note`.
    pub fn write<'h, R: Wait>(&'h self, rt: &'h R) -> Writing<'h, L, R> {
        self.server_state.write(rt)
    }

    /// Begins a transaction, once no other is in progress by this way. Refused in this order: `TooManyLive` (S10), `LogFull` (S7),
    /// `Memory` (S11).
    pub fn transaction<'h, R: Wait>(
        &'h self,
        rt: &'h R,
    ) -> Result<Transaction<'h, L, R>, SessionFault>
        ensures { IfOk result HasBegun }
    {
        self.server_state.transaction(rt)
    }

    /// Writes a message outside of all transactions, and answers the position where its record starts. Refused in this order, and
    /// then nobody hears of it: `Failed` where the log's disk has, `BadPrefix` (S13), `TooLarge` (S6) where its content is, `LogFull`
    /// (S7), `Memory` (S11). Streams that ask for messages send it at once, whatever transactions do (PostgreSQL 15, 9.27.6). Where
    /// the log is kept on a disk, it is answered once it is there.
    ///
    /// It waits until no `Transaction` is in progress, so a thread that has one ends it first.
    pub fn note<R: Wait + Clock>(
        &self,
        rt: &R,
        prefix: &str,
        content: &[u8],
    ) -> Result<u64, NoteFault> {
        self.server_state.note(rt, prefix, content)
    }

    // ---- what is on the disk

    /// Puts what is written into this segment, until `end_keeping` is called: all that there is then, too. The hub was opened by its
    /// entries (`HubBuilder::entries`). Where a write or a sync fails, commits are refused from then on, and all else goes on; it is
    /// answered at once. `Behind` where the hub wasn't opened by entries.
    pub fn keep<D: Disk + Drop, R: Wait + Clock>(
        &self,
        rt: &R,
        segment: Segment<D>,
    ) -> Result<(), KeepFault> {
        self.server_state.keep(rt, segment)
    }

    /// The server ends, and nothing more is written: what there is is put on the disk, and then `keep` ends.
    pub fn end_keeping<R: Wait>(&self, rt: &R) {
        self.server_state.end_keeping(rt);
    }

    /// Why nothing may be written, if nothing may: the disk has failed.
    pub fn disk_fault<R: Wait>(&self, rt: &R) -> Option<DiskFault> {
        self.server_state.disk_fault(rt)
    }

    // ---- who may connect

    /// From now on these users may connect by their passwords. False: no passwords are asked.
    pub fn replace_users<R: Wait>(&self, rt: &R, users: Items<User>) -> bool {
        self.server_state.replace_users(rt, users)
    }

    // ---- what runs

    /// Waits until so many streams have begun since the hub was opened, or `end_awaiting` was called. What is committed then
    /// reaches those streams.
    pub fn await_streams<R: Wait>(&self, rt: &R, count: u64) {
        self.server_state.await_streams(rt, count);
    }

    /// Nobody awaits streams from now on, since no more connections come.
    pub fn end_awaiting<R: Wait>(&self, rt: &R) {
        self.server_state.end_awaiting(rt);
    }

    /// What is served now. The parts are looked at one after the other, so connections may have gone on in between. `AllocError`
    /// where memory for it is refused.
    pub fn status<R: Wait + Clock>(&self, rt: &R) -> Result<HubStatus, AllocError> {
        self.server_state.status(rt)
    }

    // ---- how streams are steered on purpose, as tests of their clients need it

    /// Waits until the slot of this name is confirmed at this position or further, for so long at most, and answers whether it is.
    /// `Missing` (L1) where there is none, or it is dropped, or the server ends meanwhile.
    pub fn await_confirmed<R: Wait + Clock>(
        &self,
        rt: &R,
        slot: &str,
        position: u64,
        patience: Duration,
    ) -> Result<bool, SteerFault> {
        self.server_state
            .await_confirmed(rt, slot, position, patience)
    }

    /// The same until a stream of the slot runs; `Missing` (L1) as there.
    pub fn await_stream<R: Wait + Clock>(
        &self,
        rt: &R,
        slot: &str,
        patience: Duration,
    ) -> Result<bool, SteerFault> {
        self.server_state.await_stream(rt, slot, patience)
    }

    /// Nothing of the slot's stream is written any more, nor of those that come, until it is let go; statuses are read all the same.
    /// `Missing` (L1) where there is no such slot.
    pub fn hold_stream<R: Wait>(&self, rt: &R, slot: &str) -> Result<(), SteerFault> {
        self.server_state.hold_stream(rt, slot)
    }

    /// The slot's stream goes on. `Missing` (L1) where there is no such slot.
    pub fn resume_stream<R: Wait>(&self, rt: &R, slot: &str) -> Result<(), SteerFault> {
        self.server_state.resume_stream(rt, slot)
    }

    /// A keepalive asks the client of the slot's stream for an answer: at once, or as its next stream begins. `Missing` (L1) where
    /// there is no such slot.
    pub fn ask_stream<R: Wait>(&self, rt: &R, slot: &str) -> Result<(), SteerFault> {
        self.server_state.ask_stream(rt, slot)
    }

    /// Cuts the connection of the slot's stream, or of its next one, after so many more bytes: in the middle of a frame, where they
    /// end in one. After none it is cut at once, between two frames. The stream after that isn't cut. `Missing` (L1) where there is
    /// no such slot.
    pub fn cut_stream<R: Wait>(&self, rt: &R, slot: &str, bytes: u64) -> Result<(), SteerFault> {
        self.server_state.cut_stream(rt, slot, bytes)
    }

    // ---- how the server ends

    /// Ends the server: no connection is served but those that are, and nobody waits at the listener. Each stream sends what is
    /// held and what the log has, and CopyDone; once its client has closed its side, or said CopyDone too, what it has flushed is
    /// confirmed, and its connection is closed. Each other connection is closed at once. Ten seconds later those that aren't
    /// over are cut off.
    pub fn stop<R: Wait + Clock>(&self, rt: &R, listener: &ListenerHandle) {
        self.server_state.settle(rt);
        self.server_state.shut_down(rt);
        listener.shut();
        for _ in 0..RESTS {
            if self.server_state.is_deserted(rt) {
                return;
            }
            thread::sleep(rt, Duration::from_millis(REST));
        }
        self.server_state.cut_off(rt);
    }

    /// Whether `stop` was called.
    pub fn is_ending(&self) -> bool {
        self.server_state.is_ending()
    }
}
