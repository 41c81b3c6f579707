//! A stream that is written, with all that goes back at its end.

ghost use Rattle.std.specs.Prelude.{◌≡◌, ◌⊎◌, ◌-◌, ◌++◌, [], ℕ, List, false, length, max, min, OnErr, OnOk};
ghost use Rattle.std.specs.Io.KnownBytes.{Appends};
ghost use Rattle.slots.specs.Rule.{slot_step, with_step};
ghost use Rattle.slots.specs.Seats.{DidAt};
ghost use Rattle.slots.specs.Standings.{held_by};
ghost use Rattle.slots.specs.declared.words_kept.step.SlotKind.TheVariants.{Raise, Release};
ghost use mathlib.Core.List.{IsPrefix};
ghost use Rattle.shared_log.specs.Readers.{seen_of};
ghost use Rattle.wal.specs.Log.{IsWellFormedLog};
ghost use Rattle.wal.specs.declared.record.Record.{Record};
ghost use Rattle.walsender.specs.Sending.{HasChunks};
ghost use Rattle.walsender.specs.Serving.{Gives, Serves, StaysOn};
ghost use Rattle.hub.specs.Streams.{HasLearnt, StreamsOn, asking, keepalives};
ghost use Rattle.hub.specs.Turns.{Confirms, WritesWhole};
ghost use Rattle.pgoutput.specs.Words.{word_bytes};
ghost use Rattle.pgoutput.specs.Items.{keepalive_word};

use crate::stream::demand::ChunksNeeded;
use crate::stream::grant::StreamGrant;
use connections::{Hold, Work};
use server::Phase;
use server_state::{CommitNotice, ReaderSeat};
use shared_log::LogName;
use slots::{SlotName, SlotTable};
use std::alloc::Global;
use std::io;
use std::io::Write;
use walsender::{SendFault, TURN_RECORDS, TurnFault, Walsender};

/// How many keepalives are held at once, of those that answer statuses.
const MOST_KEEPALIVES: u32 = 256;

/// How many records a turn for this work reads at most, of a stream that has come so far.
fn most_read(work: &Work, place: usize) -> usize
    ensures { result ≡ min TURN_RECORDS (work.now.readable - place) }
{
    TURN_RECORDS.min(work.readable.saturating_sub(place))
}

/// A walsender, and the slot that it confirms. It isn't `Drop`: `end` ends it.
pub(crate) struct Stream<L: LogName + SlotName> {
    alloc: Global,
    walsender: Walsender<L>,
    hold: Hold<L>,
    latch: usize,
    start: u64,
    /// The greatest position that its client has flushed, by its statuses.
    flushed: u64,
    /// Up to where its slot was confirmed by it.
    confirmed: u64,
    /// The position of the last keepalive; 0 before the first.
    told: u64,
}

impl<L: LogName + SlotName> Stream<L> {
    /// The stream of a grant, which has read nothing.
    pub fn open(alloc: Global, grant: StreamGrant<L>) -> Self
        ensures asked { (result.walsender.sender.selection ≡ grant.selection)
            × (result.walsender.sender.start ≡ grant.start) }
        ensures serves { (log : List Record) → IsPrefix (seen_of grant.reader) log →
            IsWellFormedLog log → Serves log [] result.walsender }
        ensures new { ∥ Serves (seen_of result.walsender.reader) [] result.walsender ∥₁ }
        ensures hold { result.hold ≡ grant.hold }
        ensures chunks { HasChunks result.walsender.sender (length grant.arena) }
    {
        let StreamGrant {
            selection,
            start,
            first,
            reader,
            hold,
            latch,
            arena,
        } = grant;
        Stream {
            alloc,
            walsender: Walsender::begin(alloc, reader, selection, start, first, arena),
            hold,
            latch,
            start,
            flushed: 0,
            confirmed: 0,
            told: 0,
        }
    }

    /// Where its memory comes from.
    pub fn alloc(&self) -> Global {
        self.alloc
    }

    /// Up to where the log was read.
    pub fn position(&self) -> u64
        ensures { result ≡ self.now.walsender.sender.position }
    {
        self.walsender.position()
    }

    /// Up to where its slot was confirmed by it; 0 before that.
    pub fn confirmed(&self) -> u64 {
        self.confirmed
    }

    /// How many chunks are free for the changes of transactions in progress.
    pub fn free_chunks(&self) -> usize {
        self.walsender.free_chunks()
    }

    /// The place of its slot.
    pub fn place(&self) -> usize {
        self.hold.place()
    }

    /// Which latch wakes it.
    pub fn latch(&self) -> usize {
        self.latch
    }

    /// Its next turn sees the log with this commit.
    pub fn learn(&mut self, notice: &CommitNotice<L>)
        ensures learnt { HasLearnt self.old.walsender self.new.walsender }
        ensures hold { self.new.hold ≡ self.old.hold }
    {
        notice.tell(&mut self.walsender.reader);
    }

    /// Does what its inbox asks: confirms what was flushed, holds a keepalive for each status that asked and one that asks a
    /// silent client, reads on as far as its work lets it, and writes all that is held. Where the connection is over, it only confirms.
    /// Faults as of `Walsender::turn` (U1 to U5).
    pub fn go_on<W: Write>(
        &mut self,
        slots: &SlotTable<L>,
        work: &Work,
        to: &mut W,
    ) -> Result<(), TurnFault>
        ensures serves { StreamsOn self.old.walsender self.new.walsender (W.contents to.old)
            (W.contents to.new) }
        ensures confirms { Confirms work.now.flushed self.old.walsender.sender.position
            self.old.hold.lease.place self.old.hold.seat self.new.hold.seat }
        ensures lease { self.new.hold.lease ≡ self.old.hold.lease }
        ensures answers { OnOk result
            ((work.now.phase ≡ Phase.Closed)
            ⊎ WritesWhole work.now self.old.walsender self.new.walsender (W.contents to.old)
            (W.contents to.new)) }
    {
        self.confirm_any(slots, work.flushed);
        if work.phase == Phase::Closed {
            return Ok(());
        }
        let clock = work.clock;
        let most = most_read(work, self.walsender.place());
        self.answer_statuses(work.asked, clock, to)?;
        self.ask_if(work.is_silent, clock)?;
        self.walsender.turn(self.alloc, most, clock, to)?;
        self.tell_position(clock, to)
    }

    /// Holds a keepalive that asks a silent client for an answer.
    fn ask_if(&mut self, is_silent: bool, clock: i64) -> Result<(), SendFault>
        ensures serves { StaysOn self.old.walsender self.new.walsender }
        ensures reader { self.new.walsender.reader ≡ self.old.walsender.reader }
        ensures position { self.new.walsender.sender.position ≡ self.old.walsender.sender.position }
        ensures hold { self.new.hold ≡ self.old.hold }
        ensures held { OnOk result
            (self.new.walsender.sender
            ≡ record self.old.walsender.sender {
              held = self.old.walsender.sender.held
                  ++ asking is_silent self.old.walsender.sender.position clock;
            }) }
        ensures err { OnErr result (self.new.walsender.sender ≡ self.old.walsender.sender) }
    {
        if is_silent {
            self.walsender.keepalive(clock, true)?;
        }
        Ok(())
    }

    /// Writes a keepalive where the client has flushed less than was read and wasn't told of it yet: it may be of transactions
    /// that aren't sent, and the client can confirm them all the same.
    fn tell_position<W: Write>(&mut self, clock: i64, to: &mut W) -> Result<(), TurnFault>
        ensures serves { StreamsOn self.old.walsender self.new.walsender (W.contents to.old)
            (W.contents to.new) }
        ensures reader { self.new.walsender.reader ≡ self.old.walsender.reader }
        ensures position { self.new.walsender.sender.position ≡ self.old.walsender.sender.position }
        ensures whole { self.old.walsender.sender.held ≡ [] →
            OnOk result (self.new.walsender.sender.held ≡ []) }
        ensures says { self.old.walsender.sender.held ≡ [] → OnOk result
            ((W.contents to.new ≡ W.contents to.old)
            ⊎ Appends (W.contents to.old) (W.contents to.new)
            (word_bytes (keepalive_word self.old.walsender.sender.position clock false))) }
        ensures hold { self.new.hold ≡ self.old.hold }
    {
        let position = self.walsender.position();
        if position <= self.flushed || position <= self.told {
            return Ok(());
        }
        self.walsender.keepalive(clock, false)?;
        self.walsender.write_held(to)?;
        self.told = position;
        Ok(())
    }

    /// Confirms what a client has flushed, if it told of any.
    pub fn confirm_any(&mut self, slots: &SlotTable<L>, flushed: Option<u64>)
        ensures confirms { Confirms flushed self.old.walsender.sender.position
            self.old.hold.lease.place self.old.hold.seat self.new.hold.seat }
        ensures same { (self.new.walsender ≡ self.old.walsender)
            × (self.new.hold.lease ≡ self.old.hold.lease) }
    {
        if let Some(flushed) = flushed {
            self.flushed = self.flushed.max(flushed);
            self.confirmed = self.confirm(slots, flushed);
        }
    }

    /// Confirms what a client has flushed, as far as the stream has come.
    fn confirm(&mut self, slots: &SlotTable<L>, flushed: u64) -> u64
        ensures raised { (found : ℕ)
            × (result ≡ max found (min flushed self.old.walsender.sender.position))
            × DidAt Raise self.old.hold.lease.place found result self.old.hold.seat
            self.new.hold.seat }
        ensures same { (self.new.walsender ≡ self.old.walsender)
            × (self.new.hold.lease ≡ self.old.hold.lease) }
    {
        let reached = self.walsender.confirmable(flushed);
        self.hold.confirm(slots, reached)
    }

    /// Holds a keepalive for each of so many statuses that asked. What is held is written in between, so that few are held at
    /// once.
    fn answer_statuses<W: Write>(
        &mut self,
        count: u32,
        clock: i64,
        to: &mut W,
    ) -> Result<(), TurnFault>
        ensures kept { OnOk result
            ((given : List ℕ)
            × (given ++ self.new.walsender.sender.held
            ≡ self.old.walsender.sender.held
            ++ keepalives self.old.walsender.sender.position clock count)
            × Appends (W.contents to.old) (W.contents to.new) given) }
        ensures serves { StreamsOn self.old.walsender self.new.walsender (W.contents to.old)
            (W.contents to.new) }
        ensures reader { self.new.walsender.reader ≡ self.old.walsender.reader }
        ensures rest { self.new.walsender.sender
            ≡ record self.old.walsender.sender {
              held = self.new.walsender.sender.held;
              lent = self.new.walsender.sender.lent;
            } }
        ensures hold { self.new.hold ≡ self.old.hold }
    {
        let mut due = count;
        while MOST_KEEPALIVES < due {
            self.keep_alive(MOST_KEEPALIVES, clock)?;
            self.walsender.write_held(to)?;
            due -= MOST_KEEPALIVES;
        }
        self.keep_alive(due, clock)?;
        Ok(())
    }

    /// Holds so many keepalives after all that is held.
    fn keep_alive(&mut self, count: u32, clock: i64) -> Result<(), SendFault>
        ensures held { OnOk result
            (self.new.walsender.sender.held
            ≡ self.old.walsender.sender.held
            ++ keepalives self.old.walsender.sender.position clock count) }
        ensures rest { self.new.walsender.sender
            ≡ record self.old.walsender.sender { held = self.new.walsender.sender.held } }
        ensures serves { StaysOn self.old.walsender self.new.walsender }
        ensures reader { self.new.walsender.reader ≡ self.old.walsender.reader }
        ensures hold { self.new.hold ≡ self.old.hold }
    {
        for _ in 0..count {
            self.walsender.keepalive(clock, false)?;
        }
        Ok(())
    }

    /// Writes what is held of what was read. The writer's error; the rest is held then.
    pub fn write_rest<W: Write>(&mut self, to: &mut W) -> io::Result<()>
        ensures ok { OnOk result (self.new.walsender.sender.held ≡ []) }
        ensures serves { (given : List ℕ) × Gives given self.old.walsender self.new.walsender
            × Appends (W.contents to.old) (W.contents to.new) given }
        ensures position { self.new.walsender.sender.position ≡ self.old.walsender.sender.position }
        ensures hold { self.new.hold ≡ self.old.hold }
    {
        self.walsender.write_held(to)
    }

    /// How many chunks the changes take that its slot's next stream reads of the log, where it is over. Its reader is left anywhere.
    /// None as of `ChunksNeeded::of`.
    pub fn chunks_needed(&mut self) -> Option<u32> {
        let start = self.start.max(self.confirmed);
        let needed = ChunksNeeded::of(self.alloc, &mut self.walsender.reader, start)?;
        Some(needed.all)
    }

    /// Makes the slot free, and gives reader and seat back.
    pub fn end(self, slots: &SlotTable<L>) -> ReaderSeat<L>
        ensures reader { result.reader ≡ self.walsender.reader }
        ensures seat { result.seat
            ≡ with_step self.hold.seat
            (slot_step Release self.hold.lease.place (held_by self.hold.seat.number) 1) }
    {
        let Stream {
            alloc: _,
            walsender,
            hold,
            latch,
            start: _,
            flushed: _,
            confirmed: _,
            told: _,
        } = self;
        let (_, reader) = walsender.end();
        ReaderSeat::of(reader, hold.release(slots), latch)
    }
}
