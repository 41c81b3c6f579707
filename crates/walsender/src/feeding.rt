//! Reading records one by one.

ghost use Rattle.std.specs.Prelude.{◌≡◌, ◌≢◌, ℕ, List, false, Err, IfErr, OnErr, OnOk};
ghost use Rattle.wal.specs.Records.{shared_records};
ghost use Rattle.reorder.specs.Chunks.{LeavesNoRoom};
ghost use Rattle.reorder.specs.Taking.{HasTaken, MayCome, StartsBehind};
ghost use Rattle.wal.specs.declared.record.Record.{Record as Logged};
ghost use Rattle.walsender.specs.Sending.{Fills, HasChunks, HasRoom, HasSize, IsFilled, IsOut, LacksRoom, ReadAll, RanOut, OutputUnchanged, ReadOne};

use crate::fault::SendFault;
use crate::sender::Sender;
use reorder::ReorderFault;
use std::sync::Arc;
use wal::Record;

impl Sender {
    pub(crate) fn take_all(&mut self, records: &[Arc<Record>], clock: i64) -> Result<(), SendFault>
        requires { self.old.failed ≡ false }
        ensures ok { OnOk result (ReadAll clock self.old self.new (shared_records records.now)) }
        ensures running { OnOk result (self.new.failed ≡ false) }
        ensures out { OnErr result (RanOut clock self.old self.new (shared_records records.now)) }
        ensures err { IfErr result IsOut }
        ensures room { result ≡ Err SendFault.ArenaFull →
            LacksRoom self.old self.new (shared_records records.now) }
        ensures left { result ≡ Err SendFault.Memory →
            HasRoom self.old self.new (shared_records records.now) }
        ensures filled { result ≡ Err SendFault.ArenaFull →
            Fills self.old self.new (shared_records records.now) }
        ensures chunks { OnOk result
            ((count : ℕ) → HasChunks self.old count → HasChunks self.new count) }
        ensures size { (count : ℕ) → HasSize self.old count → HasSize self.new count }
    {
        for record in records {
            match self.take(record, clock) {
                Ok(()) => {}
                Err(fault) => {
                    self.failed = true;
                    return Err(fault);
                }
            }
        }
        Ok(())
    }

    fn take(&mut self, next: &Arc<Record>, clock: i64) -> Result<(), SendFault>
        ensures ok { OnOk result (ReadOne clock self.old self.new next.now.value) }
        ensures err { OnErr result (OutputUnchanged self.old self.new) }
        ensures out { IfErr result IsOut }
        ensures room { result ≡ Err SendFault.ArenaFull → (rs : List Logged) (count : ℕ) →
            HasTaken self.old.reorder rs → MayCome rs next.now.value.body →
            HasChunks self.old count → LeavesNoRoom count rs next.now.value }
        ensures left { result ≡ Err SendFault.Memory → (rs : List Logged) (count : ℕ) →
            self.old.reorder.failed ≡ false → HasTaken self.old.reorder rs →
            MayCome rs next.now.value.body → StartsBehind rs next.now.value →
            HasChunks self.old count → LeavesNoRoom count rs next.now.value → ⊥ }
        ensures filled { result ≡ Err SendFault.ArenaFull → (rs : List Logged) (count : ℕ) →
            HasTaken self.old.reorder rs → MayCome rs next.now.value.body →
            HasChunks self.old count → IsFilled self.new }
        ensures chunks { OnOk result
            ((count : ℕ) → HasChunks self.old count → HasChunks self.new count) }
        ensures size { (count : ℕ) → HasSize self.old count → HasSize self.new count }
        ensures failed { self.new.failed ≡ self.old.failed }
    {
        self.outgoing.give_way(&self.selection, &mut self.reorder)?;
        match self.reorder.take(next) {
            Err(fault) => return Err(refusal_of(fault)),
            Ok(step) => self.outgoing.add_record(
                &self.selection,
                self.start,
                &mut self.reorder,
                next,
                step,
                clock,
                &mut self.room,
            )?,
        }
        self.position = next.end;
        Ok(())
    }
}

/// What a regrouping's refusal comes to. One that failed before has failed its sender.
fn refusal_of(fault: ReorderFault) -> SendFault
    ensures out { IsOut result }
    ensures full { result ≡ SendFault.ArenaFull → fault ≡ ReorderFault.Full }
    ensures memory { result ≡ SendFault.Memory → fault ≢ ReorderFault.Full }
{
    match fault {
        ReorderFault::Full => SendFault::ArenaFull,
        ReorderFault::Memory | ReorderFault::Failed => SendFault::Memory,
    }
}
