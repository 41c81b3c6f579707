//! Regrouping the changes of a log by transaction.

ghost use Rattle.std.specs.Prelude.{◌≡◌, ◌≢◌, ◌<◌, ◌+◌, ◌++◌, ℕ, List, [], ◌∷◌, Option, None, length, replicate, false, true, Err, IfOk, OnErr, OnOk};
ghost use Rattle.chgarena.specs.Strands.{fills};
ghost use Rattle.wal.specs.declared.record.Record.{Record as Logged};
ghost use Rattle.reorder.specs.Chunks.{IsTidy, LeavesNoRoom, held_with, live_chunks};
ghost use Rattle.reorder.specs.Pool.{AreApart, IsLent, Lasts, StaysLent};
ghost use Rattle.reorder.specs.Ready.{IsEntryAt, IsReadyIn, ReadyState, ready_entries};
ghost use Rattle.reorder.specs.Settled.{AreLentIn, FillsReady, LeavesNoRoomBeside, after_giving_all_back, after_giving_back, lent_chunks};
ghost use Rattle.reorder.specs.Taking.{HasTaken, IsHeld, IsStepApart, IsStepHeld, IsSameTaken, MayCome, Takes, readied_changes};

use crate::fault::ReorderFault;
use crate::places::entry::{body_of, entry_len, position_of, write_entry};
use crate::ready::{CommittedChanges, RecordOutcome};
use crate::strands::Strands;
use bytes::BytesMut;
use chgarena::Arena;
use std::alloc::Global;
use std::marker::Model;
use wal::{Body, Record};

/// The changes of the transactions in progress, by the xids that made them, in an arena.
///
/// Records go in one by one and in log order, each by `take`. `RecordOutcome::Quiet` means that nothing of a transaction is to be published yet;
/// a note is quiet too, and takes no room.
/// `RecordOutcome::Ready` comes with a commit: `entry` lends its changes one by one, and `finish` takes the `CommittedChanges` back. Several may be in
/// being while more records are taken.
///
/// The first record may be any record of a log. Of a transaction in progress there only the changes from this record on are
/// known. A subtransaction of it that began earlier counts as a transaction of its own, which never commits.
///
/// An error is the end: Q1 is a full arena, Q2 is want of memory, and every `take` after either is Q3. A change for which the arena
/// has no room is Q1, whether or not there is memory.
#[derive(Drop)]
pub struct Reorder {
    strands: Strands,
    /// One entry, before it is copied into the arena.
    scratch: BytesMut,
    failed: bool,
}

impl Model for Reorder {
    ghost use Rattle.reorder.specs.Taking.{ReorderState};

    ghost Value = { ReorderState };

    ghost view = { λ r. record { strands = r.strands; failed = r.failed } };
}

impl Reorder {
    /// A regrouping that has taken no record, over an arena of its own.
    pub fn new(alloc: Global, arena: Arena) -> Self
        ensures untaken { HasTaken result [] }
        ensures tidy { (count : ℕ) → arena ≡ replicate count None → IsTidy count [] result.strands }
        ensures running { result.failed ≡ false }
    {
        Reorder {
            strands: Strands::new(alloc, arena),
            scratch: BytesMut::new(alloc),
            failed: false,
        }
    }

    /// How many chunks of the arena are free: all but those that changes of transactions in progress fill, unless rolled back, and those
    /// of what is ready.
    pub fn free_chunks(&self) -> usize
        ensures free { result + fills self.now.strands.pool.arena
            ≡ length self.now.strands.pool.arena }
        ensures exact { (rs : List Logged) (count : ℕ) → HasTaken self.now rs →
            IsTidy count [] self.now.strands → result + live_chunks rs ≡ count }
        ensures exact_beside { (rs : List Logged) (ws : List ReadyState) (count : ℕ) →
            HasTaken self.now rs → AreLentIn self.now ws →
            IsTidy count [] (after_giving_all_back self.now ws).strands →
            result + live_chunks rs + lent_chunks self.now ws ≡ count }
    {
        self.strands.free()
    }

    /// Takes the next record of a log, and answers what it makes ready. A change for which the arena has no room is `Full`
    /// (Q1), and where other memory is refused it is `Memory` (Q2). After either, each record is `Failed` (Q3).
    pub fn take(&mut self, next: &Record) -> Result<RecordOutcome, ReorderFault>
        ensures ok { IfOk result
            (λ step. Takes self.old self.new next.now (readied_changes self.new step)) }
        ensures held { IfOk result (λ step. IsStepHeld self.new step) }
        ensures running { OnOk result ((self.old.failed ≡ false) × (self.new.failed ≡ false)) }
        ensures fails { OnErr result (self.new.failed ≡ true) }
        ensures failed { result ≡ Err ReorderFault.Failed →
            (self.old.failed ≡ true) × (self.new ≡ self.old) }
        ensures full { result ≡ Err ReorderFault.Full →
            (self.old.failed ≡ false)
            × ((rs : List Logged) (count : ℕ) → HasTaken self.old rs →
            MayCome rs next.now.body → IsTidy count [] self.old.strands →
            LeavesNoRoom count rs next.now) }
        ensures full_beside { result ≡ Err ReorderFault.Full →
            (rs : List Logged) (ws : List ReadyState) (count : ℕ) → HasTaken self.old rs →
            MayCome rs next.now.body → AreLentIn self.old ws →
            IsTidy count [] (after_giving_all_back self.old ws).strands →
            LeavesNoRoomBeside (lent_chunks self.old ws) count rs next.now }
        ensures lacks { (rs : List Logged) (count : ℕ) → self.old.failed ≡ false → HasTaken self.old rs →
            MayCome rs next.now.body → IsTidy count [] self.old.strands →
            LeavesNoRoom count rs next.now → result ≡ Err ReorderFault.Full }
        ensures lacks_beside { (rs : List Logged) (ws : List ReadyState) (count : ℕ) →
            self.old.failed ≡ false → HasTaken self.old rs → MayCome rs next.now.body → AreLentIn self.old ws →
            IsTidy count [] (after_giving_all_back self.old ws).strands →
            LeavesNoRoomBeside (lent_chunks self.old ws) count rs next.now →
            result ≡ Err ReorderFault.Full }
        ensures tidy { IfOk result
            (λ step. (count : ℕ) (held : List ReadyState) → IsTidy count held self.old.strands →
            IsTidy count (held_with held step) self.new.strands) }
        ensures chunks { IfOk result
            (λ step. (rs : List Logged) → HasTaken self.old rs → MayCome rs next.now.body →
            FillsReady self.new step) }
        ensures memory { result ≡ Err ReorderFault.Memory → self.old.failed ≡ false }
        ensures filled { result ≡ Err ReorderFault.Full →
            fills self.new.strands.pool.arena ≡ length self.new.strands.pool.arena }
        ensures size { length self.new.strands.pool.arena ≡ length self.old.strands.pool.arena }
        ensures lent { StaysLent self.old.strands.pool self.new.strands.pool }
        ensures apart { IfOk result
            (λ step. (lent : List (ℕ × Option ℕ)) → IsLent self.old.strands.pool lent →
            IsStepApart step lent) }
    {
        if self.failed {
            return Err(ReorderFault::Failed);
        }
        // Stays set where the record is refused.
        self.failed = true;
        let step = self.regroup(next)?;
        self.failed = false;
        Ok(step)
    }

    /// What the record does to the strands, and what it makes ready of them.
    fn regroup(&mut self, next: &Record) -> Result<RecordOutcome, ReorderFault>
        ensures takes { IfOk result
            (λ step. Takes self.old self.new next.now (readied_changes self.new step)) }
        ensures held { IfOk result (λ step. IsStepHeld self.new step) }
        ensures failed { self.new.failed ≡ self.old.failed }
        ensures full { result ≡ Err ReorderFault.Full → (rs : List Logged) (count : ℕ) →
            HasTaken self.old rs → MayCome rs next.now.body → IsTidy count [] self.old.strands →
            LeavesNoRoom count rs next.now }
        ensures full_beside { result ≡ Err ReorderFault.Full →
            (rs : List Logged) (ws : List ReadyState) (count : ℕ) → HasTaken self.old rs →
            MayCome rs next.now.body → AreLentIn self.old ws →
            IsTidy count [] (after_giving_all_back self.old ws).strands →
            LeavesNoRoomBeside (lent_chunks self.old ws) count rs next.now }
        ensures lacks { (rs : List Logged) (count : ℕ) → HasTaken self.old rs →
            MayCome rs next.now.body → IsTidy count [] self.old.strands →
            LeavesNoRoom count rs next.now → result ≡ Err ReorderFault.Full }
        ensures lacks_beside { (rs : List Logged) (ws : List ReadyState) (count : ℕ) →
            HasTaken self.old rs → MayCome rs next.now.body → AreLentIn self.old ws →
            IsTidy count [] (after_giving_all_back self.old ws).strands →
            LeavesNoRoomBeside (lent_chunks self.old ws) count rs next.now →
            result ≡ Err ReorderFault.Full }
        ensures tidy { IfOk result
            (λ step. (count : ℕ) (held : List ReadyState) → IsTidy count held self.old.strands →
            IsTidy count (held_with held step) self.new.strands) }
        ensures chunks { IfOk result
            (λ step. (rs : List Logged) → HasTaken self.old rs → MayCome rs next.now.body →
            FillsReady self.new step) }
        ensures running { result ≢ Err ReorderFault.Failed }
        ensures filled { result ≡ Err ReorderFault.Full →
            fills self.new.strands.pool.arena ≡ length self.new.strands.pool.arena }
        ensures size { length self.new.strands.pool.arena ≡ length self.old.strands.pool.arena }
        ensures lent { StaysLent self.old.strands.pool self.new.strands.pool }
        ensures apart { IfOk result
            (λ step. (lent : List (ℕ × Option ℕ)) → IsLent self.old.strands.pool lent →
            IsStepApart step lent) }
    {
        match &next.body {
            Body::Assign(sub, parent) => {
                self.strands.open(*parent)?;
                self.strands.assign(*sub, *parent)?;
            }
            Body::Change(xid, change) => {
                // Before memory is asked for, so that a full arena is never told as want of it.
                if self.strands.is_full_for(*xid, entry_len(change)) {
                    return Err(ReorderFault::Full);
                }
                self.strands.open(*xid)?;
                write_entry(&mut self.scratch, next.start, change)?;
                self.strands.push(*xid, self.scratch.as_slice())?;
            }
            Body::AbortSub(xid) => self.strands.undo(*xid),
            Body::Abort(top) => self.strands.end(*top),
            Body::Note(_) => {}
            Body::Commit(top, _) => return Ok(RecordOutcome::Ready(self.strands.make_ready(*top)?)),
        }
        Ok(RecordOutcome::Quiet)
    }

    /// The k-th change that is ready: the position at which its record starts, and its body. It is lent from the arena, and found at
    /// once where the changes are asked for in their order.
    pub fn entry<'a>(&'a self, ready: &mut CommittedChanges, k: usize) -> (u64, &'a [u8])
        requires held { IsReadyIn self.now.strands.pool ready.old }
        requires within { k < length ready.old.places }
        ensures entry { IsEntryAt (ready_entries self.now.strands.pool ready.old) k result.0
            result.1.now }
        ensures same { ready.new ≡ ready.old }
    {
        let entry = self.strands.entry(ready, k);
        (position_of(entry), body_of(entry))
    }

    /// Gives back what was ready.
    pub fn finish(&mut self, ready: CommittedChanges)
        requires { IsHeld self.old ready }
        ensures same { IsSameTaken self.old self.new }
        ensures exact { self.new ≡ after_giving_back self.old ready }
        ensures tidy { (count : ℕ) (held : List ReadyState) →
            IsTidy count (ready ∷ held) self.old.strands → IsTidy count held self.new.strands }
        ensures lent { (lent : List (ℕ × Option ℕ)) → IsLent self.old.strands.pool lent →
            AreApart ready.strands lent → Lasts self.old.strands.pool self.new.strands.pool lent }
    {
        self.strands.give_back(ready);
    }
}
