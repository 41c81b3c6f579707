//! A sender and its reader.

ghost use Rattle.std.specs.Prelude.{◌≡◌, ◌≢◌, ◌↔◌, ◌+◌, ◌<◌, ◌++◌, ◌==◌, [], ℕ, List, None, false, true, drop, length, min, not, replicate, take, Err, IfErr, IfOk, OnErr, OnOk};
ghost use Rattle.std.specs.Io.KnownBytes.{Appends};
ghost use mathlib.Core.List.{IsPrefix};
ghost use Rattle.std.specs.declared.io.Error.{Error};
ghost use Rattle.wal.specs.declared.record.Record.{Record};
ghost use Rattle.wal.specs.Log.{IsWellFormedLog};
ghost use Rattle.pgoutput.specs.Words.{word_bytes};
ghost use Rattle.pgoutput.specs.Items.{keepalive_word};
ghost use Rattle.shared_log.specs.SeenPrefixes.{settled_records};
ghost use Rattle.shared_log.specs.Readers.{HasSeen, seen_of};
ghost use Rattle.shared_log.specs.declared.fault.ReadFault.{ReadFault};
ghost use Rattle.walsender.specs.Faults.{fault_of_fetch, has_fetched, has_written};
ghost use Rattle.walsender.specs.Lent.{AreLastOf};
ghost use Rattle.walsender.specs.Sending.{HasChunks, HasRead, LeavesChunks, LeavesFree};
ghost use Rattle.walsender.specs.Turning.{fetched_from};
ghost use Rattle.walsender.specs.Serving.{BeginsAt, Gives, GoesOn, Reads, ReadsAndWrites, ReadsOn, Serves, StaysOn, WritesFirst, next_records};

use crate::ended::Ended;
use crate::fault::SendFault;
use crate::sender::Sender;
use crate::stream_turn::turn_fault::TurnFault;
use crate::stream_turn::turning::turn;
use bytes::BytesMut;
use chgarena::Arena;
use publication::Selection;
use shared_log::{LogName, LogReader, ReadFault};
use std::alloc::{AllocError, Global};
use std::io;
use std::io::Write;

/// A sender, and the reader that feeds it. Whoever tells the reader of a commit has the next read see it.
///
/// What was written since its start, followed by what is held, is a stream encoding of exactly the transactions that its
/// selection publishes of the records up to its reader's place, and that commit at its start position or later. After `Err` of
/// the sender for room in its arena or for memory, it is one of a beginning of these records, and nothing more is read.
#[derive(Drop)]
pub struct Walsender<L: LogName> {
    pub(crate) sender: Sender,
    pub reader: LogReader<L>,
}

impl<L: LogName> Walsender<L> {
    /// A stream of what the selection publishes of transactions that commit at `start` or later. Its reader was resumed for that
    /// position, and `first` is where it stands: from there on it reads the log, and keeps the changes of transactions in
    /// progress in the arena.
    pub fn begin(
        alloc: Global,
        reader: LogReader<L>,
        selection: Selection,
        start: u64,
        first: u64,
        arena: Arena,
    ) -> Self
        ensures serves { (log : List Record) → BeginsAt log start first reader.place →
            Serves log [] result }
        ensures asked { (result.sender.selection ≡ selection) × (result.sender.start ≡ start) }
        ensures fresh { (result.sender.position ≡ first) × (result.sender.failed ≡ false)
            × (result.sender.held ≡ []) }
        ensures reader { result.reader ≡ reader }
        ensures chunks { (count : ℕ) → arena ≡ replicate count None →
            HasChunks result.sender count }
    {
        let Ok(sender) = Sender::start(alloc, selection, start, first, arena) else {
            unreachable!();
        };
        Walsender { sender, reader }
    }

    /// How many records of the log come before what is read next.
    pub fn place(&self) -> usize
        ensures { result ≡ self.now.reader.place }
    {
        self.reader.place()
    }

    /// The end of the last record that was read.
    pub fn position(&self) -> u64
        ensures { result ≡ self.now.sender.position }
    {
        self.sender.position()
    }

    /// How much of what a client has flushed can be confirmed: no more than was read.
    pub fn confirmable(&self, flushed: u64) -> u64
        ensures { result ≡ min flushed self.now.sender.position }
    {
        flushed.min(self.sender.position())
    }

    /// How many chunks of its arena are free: all but those that changes of transactions in progress fill, savepoints that were rolled
    /// back left out, and those of the last committed transactions, of each of which at least the Commit is held whole. After a
    /// full arena (G1) there are none.
    pub fn free_chunks(&self) -> usize
        ensures exact { (rs : List Record) (count : ℕ) → HasRead self.now.sender rs →
            HasChunks self.now.sender count → LeavesChunks self.now.sender count rs result }
        ensures free { LeavesFree self.now.sender result }
    {
        self.sender.free_chunks()
    }

    /// Whether any bytes are held.
    pub fn holds_bytes(&self) -> bool
        ensures { result ≡ not (length self.now.sender.held == 0) }
    {
        self.sender.holds_bytes()
    }

    /// Reads up to `max` records of the log, and answers what the sender made of them. Where the log gives none, nothing has
    /// changed but what the reader has seen: `NoEntry` or `Stale` (E1), `Memory` (E2), `Removed` (E3). Where the sender refuses
    /// them, as `Sender::feed` does, the reader stands after them.
    pub fn read(
        &mut self,
        alloc: Global,
        max: usize,
        clock: i64,
    ) -> Result<Result<(), SendFault>, ReadFault>
        ensures grows { IsPrefix (seen_of self.old.reader) (seen_of self.new.reader) }
        ensures told { self.new.reader.told ≡ self.old.reader.told }
        ensures sees { OnOk result
            (IsPrefix (settled_records self.new.reader.told) (seen_of self.new.reader)
            × IsWellFormedLog (seen_of self.new.reader)) }
        ensures moved { OnOk result
            (self.new.reader.place
            ≡ self.old.reader.place
            + length (next_records max self.old.reader.place (seen_of self.new.reader))) }
        ensures reads { IfOk result
            (Reads clock self.old.sender self.new.sender
            (next_records max self.old.reader.place (seen_of self.new.reader))) }
        ensures serves { OnOk result
            (ReadsOn (next_records max self.old.reader.place (seen_of self.new.reader)) self.old
            self.new) }
        ensures why { IfErr result (λ fault. HasSeen fault self.old.reader self.new.reader) }
        ensures unread { OnErr result
            ((self.new.sender ≡ self.old.sender)
            × (self.new.reader.place ≡ self.old.reader.place)) }
    {
        let records = self.reader.fetch(alloc, max)?;
        Ok(self.sender.feed(records.as_slice(), clock))
    }

    /// Reads on by so many records at most, and writes all that is held, as `crate::turn` does. It fails as that does (U1 to U5).
    pub fn turn<W: Write>(
        &mut self,
        alloc: Global,
        most: usize,
        clock: i64,
        to: &mut W,
    ) -> Result<usize, TurnFault>
        ensures grows { IsPrefix (seen_of self.old.reader) (seen_of self.new.reader) }
        ensures told { self.new.reader.told ≡ self.old.reader.told }
        ensures why { (fault : ReadFault) → result ≡ Err (fault_of_fetch fault) →
            HasSeen fault self.old.reader self.new.reader }
        ensures sees { has_fetched result ≡ true →
            IsPrefix (settled_records self.new.reader.told) (seen_of self.new.reader) }
        ensures count { IfOk result
            (λ n. n ≡ length (fetched_from most self.old.reader.place (seen_of self.new.reader))) }
        ensures reads { OnOk result
            (ReadsAndWrites clock self.old.sender self.new.sender
            (fetched_from most self.old.reader.place (seen_of self.new.reader)) (W.contents to.old)
            (W.contents to.new)) }
        ensures serves { (given : List ℕ) × GoesOn given self.old self.new
            × Appends (W.contents to.old) (W.contents to.new) given }
        ensures sent { OnOk result (self.new.sender.held ≡ []) }
        ensures first { OnOk result
            (WritesFirst self.old.sender.held self.old (W.contents to.old) (W.contents to.new)) }
        ensures broken { (e : Error) → result ≡ Err (TurnFault.Write e) →
            0 < length self.new.sender.held }
        ensures silent { has_written result ≡ false → to.new ≡ to.old }
    {
        turn(alloc, &mut self.sender, &mut self.reader, most, clock, to)
    }

    /// Holds a keepalive with the position up to which was read, after all that is held. `Failed` (G3) where the sender has
    /// failed, `Memory` (G2); nothing is added then.
    pub fn keepalive(&mut self, clock: i64, ask: bool) -> Result<(), SendFault>
        ensures ok { OnOk result
            (self.new.sender
            ≡ record self.old.sender {
              held = self.old.sender.held
                  ++ word_bytes (keepalive_word self.old.sender.position clock ask);
            }) }
        ensures err { OnErr result (self.new.sender ≡ self.old.sender) }
        ensures failed { (result ≡ Err SendFault.Failed) ↔ (self.old.sender.failed ≡ true) }
        ensures gap { result ≢ Err SendFault.Gap }
        ensures full { result ≢ Err SendFault.ArenaFull }
        ensures reader { self.new.reader ≡ self.old.reader }
        ensures serves { StaysOn self.old self.new }
    {
        self.sender.keepalive(clock, ask)
    }

    /// Writes what is held. Where the writer fails, or takes no bytes (`WriteZero`), the rest is held still.
    pub fn write_held<W: Write>(&mut self, to: &mut W) -> io::Result<()>
        ensures ok { OnOk result (self.new.sender.held ≡ []) }
        ensures err { OnErr result (0 < length self.new.sender.held) }
        ensures serves { (given : List ℕ) × (self.old.sender.held ≡ given ++ self.new.sender.held)
            × Gives given self.old self.new
            × Appends (W.contents to.old) (W.contents to.new) given }
        ensures rest { self.new.sender
            ≡ record self.old.sender { held = self.new.sender.held; lent = self.new.sender.lent } }
        ensures lent { AreLastOf self.new.sender.lent self.old.sender.lent }
        ensures reader { self.new.reader ≡ self.old.reader }
    {
        self.sender.write_held(to)
    }

    /// Moves up to `max` held bytes to the end of `out`. `AllocError` where memory for them is refused; nothing is moved then.
    pub fn drain_into(&mut self, max: usize, out: &mut BytesMut) -> Result<(), AllocError>
        ensures moved { OnOk result
            (out.new.items ≡ out.old.items ++ take max self.old.sender.held) }
        ensures rest { OnOk result
            (self.new.sender
            ≡ record self.old.sender {
              held = drop max self.old.sender.held;
              lent = self.new.sender.lent;
            }) }
        ensures lent { AreLastOf self.new.sender.lent self.old.sender.lent }
        ensures err { OnErr result
            ((self.new.sender ≡ record self.old.sender { lent = self.new.sender.lent })
            × (out.new.items ≡ out.old.items)) }
        ensures reader { self.new.reader ≡ self.old.reader }
        ensures serves { OnOk result (Gives (take max self.old.sender.held) self.old self.new) }
        ensures stays { OnErr result (StaysOn self.old self.new) }
    {
        self.sender.drain_into(max, out)
    }

    /// Ends the stream: what was held is lost, and the reader can serve another.
    pub fn end(self) -> (Ended, LogReader<L>)
        ensures ended { result.0
            ≡ record {
              selection = self.sender.selection;
              start = self.sender.start;
              position = self.sender.position;
            } }
        ensures reader { result.1 ≡ self.reader }
    {
        let Walsender { sender, reader } = self;
        (sender.end(), reader)
    }
}
