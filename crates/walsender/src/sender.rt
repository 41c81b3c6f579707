//! A sender: records in, the bytes of a stream out.

ghost use Rattle.std.specs.Prelude.{◌≡◌, ◌≢◌, ◌↔◌, ◌++◌, ◌==◌, ◌<◌, ◌^◌, ◌+◌, [], List, None, replicate, ℕ, false, true, not, min, take, drop, length, Err, IfOk, IsOk, OnErr, OnOk};
ghost use Rattle.wal.specs.Log.{follows};
ghost use Rattle.wal.specs.Records.{shared_records};
ghost use Rattle.pgoutput.specs.Words.{word_bytes};
ghost use Rattle.pgoutput.specs.Items.{keepalive_word};
ghost use Rattle.walsender.specs.Lent.{AreLastOf};
ghost use Rattle.walsender.specs.Sending.{Fills, HasChunks, HasRead, HasRoom, HasSize, LacksRoom, LeavesChunks, LeavesFree, ReadAll, RanOut};
ghost use Rattle.wal.specs.declared.record.Record.{Record as Logged};

use crate::ended::Ended;
use crate::fault::SendFault;
use crate::held::outgoing::Outgoing;
use bytes::BytesMut;
use chgarena::Arena;
use publication::Selection;
use reorder::Reorder;
use std::alloc::{AllocError, Global};
use std::marker::Model;
use std::sync::Arc;
use wal::Record;

/// Reads records of the log, and holds the bytes of the stream that they make until they are drained.
///
/// `start` makes a sender. Then, in any order and any number of times: `feed` reads the next records, `keepalive` adds a
/// keepalive, `drain` and `drain_into` move held bytes out. `into_selection` ends it.
///
/// Of `feed`, Ok means that all records were read. `Gap` (G4) means that they don't stand at `position()`, one after the other:
/// none was read, and the right ones may come next. `ArenaFull` (G1) is a full arena and `Memory` (G2) want of memory: the
/// records up to `position()` were read, and the sender has failed. A failed sender can still be drained; its `feed` and its
/// `keepalive` are `Failed` (G3). A `keepalive` that is `Memory` has added nothing, and may be called again.
#[derive(Drop)]
pub struct Sender {
    pub(crate) selection: Selection,
    pub(crate) start: u64,
    pub(crate) position: u64,
    pub(crate) reorder: Reorder,
    pub(crate) outgoing: Outgoing,
    /// Where the message of a change is made.
    pub(crate) room: Vec<u8>,
    pub(crate) failed: bool,
}

impl Model for Sender {
    ghost use Rattle.std.specs.Coded.{codes};
    ghost use Rattle.publication.specs.Publications.{condition_code};
    ghost use Rattle.walsender.specs.Outgoing.{IsOutgoing, held_of, lent_of, sent_of, settled_of};
    ghost use Rattle.walsender.specs.Sending.{SenderState};

    ghost Value = { SenderState };

    ghost coded = { Prim.hlevel (codes, condition_code (Prim.hlevel codes)) };

    ghost view = { λ s. record {
      selection = s.selection;
      start = s.start;
      position = s.position;
      failed = s.failed;
      held = held_of s.selection s.reorder s.outgoing;
      relations_sent = sent_of s.selection s.reorder s.outgoing;
      reorder = settled_of s.reorder s.outgoing;
      lent = lent_of s.reorder s.outgoing;
    } };

    ghost invariant = { λ s. IsOutgoing s.selection s.reorder s.outgoing };
}

impl Sender {
    /// A sender of what the selection publishes of transactions that commit at `start` or later. `first` is the position of
    /// the first record that it will be fed: of the whole log, where that begins.
    ///
    /// A later `first` drops what stands before it. Of a transaction in progress there, only the changes from `first` on are
    /// sent when it commits, and none of a subtransaction that began before `first`, or of one under it. So `first` stands at
    /// or before the first record of every transaction that is to be sent whole.
    ///
    /// It is never refused.
    pub fn start(
        alloc: Global,
        selection: Selection,
        start: u64,
        first: u64,
        arena: Arena,
    ) -> Result<Self, SendFault>
        ensures selection { IfOk result (λ s. s.selection ≡ selection) }
        ensures start { IfOk result (λ s. s.start ≡ start) }
        ensures position { IfOk result (λ s. s.position ≡ first) }
        ensures running { IfOk result (λ s. s.failed ≡ false) }
        ensures empty { IfOk result (λ s. s.held ≡ []) }
        ensures unread { IfOk result (λ s. HasRead s []) }
        ensures chunks { IfOk result
            (λ s. (count : ℕ) → arena ≡ replicate count None → HasChunks s count) }
        ensures ok { IsOk result }
    {
        Ok(Sender {
            selection,
            start,
            position: first,
            reorder: Reorder::new(alloc, arena),
            outgoing: Outgoing::new(alloc),
            room: Vec::new(alloc),
            failed: false,
        })
    }

    /// Reads records. What they publish is held from then on, under this clock. Judged in this order: `Failed` (G3), `Gap`
    /// (G4), then `ArenaFull` (G1) and `Memory` (G2).
    pub fn feed(&mut self, records: &[Arc<Record>], clock: i64) -> Result<(), SendFault>
        ensures ok { OnOk result (ReadAll clock self.old self.new (shared_records records.now)) }
        ensures running { OnOk result (self.new.failed ≡ false) }
        ensures follow { OnOk result
            (follows self.old.position (shared_records records.now) ≡ true) }
        ensures full { result ≡ Err SendFault.ArenaFull →
            RanOut clock self.old self.new (shared_records records.now) }
        ensures room { result ≡ Err SendFault.ArenaFull →
            LacksRoom self.old self.new (shared_records records.now) }
        ensures left { result ≡ Err SendFault.Memory →
            HasRoom self.old self.new (shared_records records.now) }
        ensures filled { result ≡ Err SendFault.ArenaFull →
            Fills self.old self.new (shared_records records.now) }
        ensures chunks { OnOk result
            ((count : ℕ) → HasChunks self.old count → HasChunks self.new count) }
        ensures size { (count : ℕ) → HasSize self.old count → HasSize self.new count }
        ensures memory { result ≡ Err SendFault.Memory →
            RanOut clock self.old self.new (shared_records records.now) }
        ensures failed { (result ≡ Err SendFault.Failed) ↔ (self.old.failed ≡ true) }
        ensures gap { (result ≡ Err SendFault.Gap)
            ↔ ((self.old.failed ≡ false)
            × (follows self.old.position (shared_records records.now) ≡ false)) }
        ensures unchanged { self.old.failed ≡ true → self.new ≡ self.old }
        ensures unread { result ≡ Err SendFault.Gap → self.new ≡ self.old }
    {
        if self.failed {
            return Err(SendFault::Failed);
        }
        if !do_follow(self.position, records) {
            return Err(SendFault::Gap);
        }
        self.take_all(records, clock)
    }

    /// Holds a keepalive with the sender's position after all that is held. `Failed` (G3) where the sender has failed, `Memory`
    /// (G2); nothing is added then.
    pub fn keepalive(&mut self, clock: i64, ask: bool) -> Result<(), SendFault>
        ensures ok { OnOk result
            (self.new
            ≡ record self.old {
              held = self.old.held
                  ++ word_bytes (keepalive_word self.old.position clock ask);
            }) }
        ensures err { OnErr result (self.new ≡ self.old) }
        ensures failed { (result ≡ Err SendFault.Failed) ↔ (self.old.failed ≡ true) }
        ensures gap { result ≢ Err SendFault.Gap }
        ensures full { result ≢ Err SendFault.ArenaFull }
        ensures fits { OnOk result (self.old.position < 2 ^ 64) }
    {
        if self.failed {
            return Err(SendFault::Failed);
        }
        self.outgoing.keepalive(self.position, clock, ask)?;
        Ok(())
    }

    /// Moves held bytes out, as many as there is room for, and answers how many.
    pub fn drain(&mut self, out: &mut [u8]) -> usize
        ensures count { result ≡ min (length out.old) (length self.old.held) }
        ensures moved { take result out.new ≡ take result self.old.held }
        ensures others { drop result out.new ≡ drop result out.old }
        ensures rest { self.new
            ≡ record self.old { held = drop result self.old.held; lent = self.new.lent } }
        ensures lent { AreLastOf self.new.lent self.old.lent }
    {
        self.outgoing.drain(&self.selection, &mut self.reorder, out)
    }

    /// Moves up to `max` held bytes to the end of `out`. `AllocError` where memory for them is refused; nothing is moved then.
    /// Frames may have been made meanwhile, so that chunks are free.
    pub fn drain_into(&mut self, max: usize, out: &mut BytesMut) -> Result<(), AllocError>
        ensures moved { OnOk result (out.new.items ≡ out.old.items ++ take max self.old.held) }
        ensures rest { OnOk result
            (self.new ≡ record self.old { held = drop max self.old.held; lent = self.new.lent }) }
        ensures lent { AreLastOf self.new.lent self.old.lent }
        ensures err { OnErr result
            ((self.new ≡ record self.old { lent = self.new.lent })
            × (out.new.items ≡ out.old.items)) }
    {
        self.outgoing
            .drain_into(&self.selection, &mut self.reorder, max, out)
    }

    /// How many chunks of the arena are free: all but those that changes of transactions in progress fill, savepoints that were rolled
    /// back left out, and those of the last committed transactions, of each of which at least the Commit is held whole. After a
    /// full arena (G1) there are none.
    pub fn free_chunks(&self) -> usize
        ensures exact { (rs : List Logged) (count : ℕ) → HasRead self.now rs →
            HasChunks self.now count → LeavesChunks self.now count rs result }
        ensures free { LeavesFree self.now result }
    {
        self.reorder.free_chunks()
    }

    /// Whether any bytes are held.
    pub fn holds_bytes(&self) -> bool
        ensures { result ≡ not (length self.now.held == 0) }
    {
        self.outgoing.holds_bytes()
    }

    /// Ends the sender: what it held is lost.
    pub fn end(self) -> Ended
        ensures { result
            ≡ record { selection = self.selection; start = self.start; position = self.position } }
    {
        let Sender {
            selection,
            start,
            position,
            ..
        } = self;
        Ended {
            selection,
            start,
            position,
        }
    }

    /// The end of the last record read, at first where the sender began.
    pub fn position(&self) -> u64
        ensures { result ≡ self.now.position }
    {
        self.position
    }
}

/// Whether the records stand one after the other from the position on.
fn do_follow(position: u64, records: &[Arc<Record>]) -> bool
    ensures { result ≡ follows position (shared_records records.now) }
{
    let mut next = position;
    for record in records {
        if record.start != next {
            return false;
        }
        next = record.end;
    }
    true
}
