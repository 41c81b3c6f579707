//! What is on its way out: bytes that are made, transactions that are still to be made, and the tables whose Relation was sent.

ghost use Rattle.std.specs.Prelude.{◌≡◌, ◌==◌, ◌&&◌, ◌+◌, ◌≤◌, ◌<◌, ◌^◌, ◌++◌, [], IfErr, IfOk, OnErr, OnOk, length, nat_lt, not, vec_capacity};
ghost use Rattle.copyboth.specs.XLogData.{xlogdata};
ghost use Rattle.frames.specs.Frame.{frame};
ghost use Rattle.frames.specs.declared.copy_data.TheConstants.{COPY_DATA};
ghost use Rattle.frames.specs.declared.parts.frame.TheConstants.{FRAME_LIMIT};
ghost use Rattle.publication.specs.Selection.{selected_oids};
ghost use Rattle.pgoutput.specs.Words.{word_bytes};
ghost use Rattle.pgoutput.specs.Items.{keepalive_word};
ghost use Rattle.walsender.specs.Outgoing.{AddsBytes, IsSameQueue, IsSized, Queues, StaysQueued};
ghost use Rattle.walsender.specs.Waiting.{begin_bytes};

use crate::commit_frames::bounds::{BEGIN_FRAME_LENGTH, put_begin};
use crate::commit_frames::header::Header;
use crate::commit_frames::word::{put_keepalive, put_spelled};
use crate::held::committed_transaction::CommittedTransaction;
use bytes::{BufMut, BytesMut};
use pqformat::whole_or_nothing;
use publication::Selection;
use reorder::CommittedChanges;
use std::alloc::{AllocError, Global};
use std::collections::VecDeque;

/// How many bytes of frames are made ahead at most: the longest frame, or as many of others as have room.
pub(crate) const FRAMES_LENGTH: usize = 19_456;

/// Bytes on their way out, in this order: those at the front, the frames that are made, and then the rest: Begins, keepalives and notes,
/// which are made already, and between them the changes and Commits of the transactions that wait, of which frames are made when they
/// go out.
#[derive(Drop)]
pub(crate) struct Outgoing {
    alloc: Global,
    /// Bytes that go out before all others: those that were gathered for a caller who had no memory for them then, and the frames of
    /// transactions that gave way where the arena was full.
    pub(crate) front: BytesMut,
    /// Frames, of which those from `from` to `to` are not taken yet.
    pub(crate) frames: Vec<u8>,
    pub(crate) from: usize,
    pub(crate) to: usize,
    /// The frames of Begins, keepalives and notes.
    pub(crate) made: BytesMut,
    /// Committed transactions, the oldest first.
    pub(crate) waiting: VecDeque<CommittedTransaction>,
    /// How many of the bytes that are made stand before the changes of the last of them.
    pub(crate) placed: usize,
    /// The tables whose Relation was sent, the oldest first.
    pub(crate) relations_sent: Vec<u32>,
}

impl Outgoing {
    pub(crate) fn new(alloc: Global) -> Self
        ensures front { result.front.items ≡ [] }
        ensures frames { result.frames.items ≡ [] }
        ensures made { result.made.items ≡ [] }
        ensures waiting { result.waiting.items ≡ [] }
        ensures relations_sent { result.relations_sent.items ≡ [] }
        ensures places { (result.from ≡ 0) × (result.to ≡ 0) × (result.placed ≡ 0) }
    {
        Outgoing {
            alloc,
            front: BytesMut::new(alloc),
            frames: Vec::new(alloc),
            from: 0,
            to: 0,
            made: BytesMut::new(alloc),
            waiting: VecDeque::new(alloc),
            placed: 0,
            relations_sent: Vec::new(alloc),
        }
    }

    /// Whether any bytes are held.
    pub(crate) fn holds_bytes(&self) -> bool
        ensures { result
            ≡ not
            ((length self.now.front.items == 0)
            && (not (nat_lt self.now.from self.now.to)
            && ((length self.now.made.items == 0) && (length self.now.waiting.items == 0)))) }
    {
        !self.front.is_empty()
            || self.from < self.to
            || !self.made.is_empty()
            || !self.waiting.is_empty()
    }

    /// Has room for frames.
    fn reserve(&mut self) -> Result<(), AllocError>
        ensures frames { IsSized self.old self.new }
        ensures room { OnOk result (0 < length self.new.frames.items) }
        ensures rest { self.new ≡ record self.old { frames = self.new.frames } }
    {
        if self.frames.is_empty() {
            self.frames = Vec::from_elem(self.alloc, 0, FRAMES_LENGTH)?;
        }
        Ok(())
    }

    /// Adds a keepalive, or, where memory is refused, nothing.
    pub(crate) fn keepalive(
        &mut self,
        position: u64,
        clock: i64,
        ask: bool,
    ) -> Result<(), AllocError>
        ensures adds { AddsBytes (word_bytes (keepalive_word position clock ask)) result self.old
            self.new }
        ensures fits { position < 2 ^ 64 }
    {
        self.reserve()?;
        let length = self.made.len();
        let written = put_keepalive(&mut self.made, position, clock, ask);
        whole_or_nothing(written, length, &mut self.made)
    }

    /// Adds the message of a note at a position, of which this is the spelling, or, where memory is refused, nothing.
    pub(crate) fn note(
        &mut self,
        position: u64,
        clock: i64,
        message: &[u8],
    ) -> Result<(), AllocError>
        requires { 29 + length message.now ≤ FRAME_LIMIT }
        ensures { AddsBytes (frame COPY_DATA (xlogdata position position clock message.now)) result
            self.old self.new }
    {
        self.reserve()?;
        let length = self.made.len();
        let written = put_spelled(&mut self.made, position, clock, message);
        whole_or_nothing(written, length, &mut self.made)
    }

    /// Adds the block of a transaction, whose changes are ready, or, where memory is refused, nothing, and hands back what is ready.
    pub(crate) fn commit(
        &mut self,
        selection: &Selection,
        ready: CommittedChanges,
        header: Header,
        clock: i64,
    ) -> Result<(), CommittedChanges>
        requires { self.old.placed ≤ length self.old.made.items }
        ensures ok { OnOk result (Queues selection.now ready clock header self.old self.new) }
        ensures err { IfErr result (λ r. (r ≡ ready) × StaysQueued self.old self.new) }
    {
        let Ok(()) = self.waiting.reserve(1) else {
            return Err(ready);
        };
        match self.begin(selection, &header, clock) {
            Ok(before) => {
                self.waiting.push_back_reserved(CommittedTransaction {
                    ready,
                    next: 0,
                    clock,
                    before,
                    header,
                });
                self.placed += before;
                Ok(())
            }
            Err(AllocError) => Err(ready),
        }
    }

    /// Adds the Begin of a transaction, with room for what comes after it, and answers how many of the bytes that are made stand before
    /// its changes. Where memory is refused, it adds nothing.
    fn begin(
        &mut self,
        selection: &Selection,
        header: &Header,
        clock: i64,
    ) -> Result<usize, AllocError>
        requires { self.old.placed ≤ length self.old.made.items }
        ensures ok { IfOk result
            (λ before. (before + self.old.placed
            ≡ length (self.old.made.items ++ begin_bytes clock header.now))
            × (self.new.made.items ≡ self.old.made.items ++ begin_bytes clock header.now)
            × (0 < length self.new.frames.items)
            × (length (selected_oids selection.now) ≤ vec_capacity self.new.relations_sent)) }
        ensures fits { IfOk result (λ before. before + self.old.placed < 2 ^ 64) }
        ensures err { OnErr result (self.new.made.items ≡ self.old.made.items) }
        ensures frames { IsSized self.old self.new }
        ensures waiting { self.new.waiting ≡ self.old.waiting }
        ensures rest { IsSameQueue self.old self.new }
    {
        self.reserve()?;
        self.relations_sent.reserve(selection.oids().len())?;
        let mut frame = [0; BEGIN_FRAME_LENGTH];
        put_begin(header, clock, &mut frame);
        self.made.put_slice(&frame)?;
        Ok(self.made.len() - self.placed)
    }
}
