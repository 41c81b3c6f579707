//! Messages outside of all transactions.

ghost use Rattle.std.specs.Prelude.{◌≡◌, ◌+◌, ◌∷◌, ◌++◌, [], ◌<◌, ◌^◌, IfErr, IfOk, OnErr, OnOk};
ghost use Rattle.tables.specs.Tables.{FitsMessage};
ghost use Rattle.txlog.specs.Invariants.{IsPublisher};
ghost use Rattle.txlog.specs.Publishing.{RefusedOrMemory, after_note, log_end, note_refusal};
ghost use Rattle.wal.specs.Log.{IsWellFormedLog, end_of};
ghost use Rattle.wal.specs.Records.{record_after};
ghost use Rattle.wal.specs.declared.record.TheConstants.{FIRST_POSITION};
ghost use Rattle.wal.specs.declared.record.Body.TheVariants.{Note};

use crate::answers::fault::SessionFault;
use crate::changing::refusal;
use crate::publisher::Publisher;
use shared_log::{LogName, LogWriter};
use std::alloc::{AllocError, Global};
use std::sync::Wait;
use store::message_of;
use tables::{Change, Message};
use wal::LoggedChange;

impl<L: LogName> Publisher<L> {
    /// Writes a message outside of all transactions, and answers the position where its record starts. Refused in this order:
    /// `BadPrefix` (S13), `TooLarge` (S6) where its content is, `LogFull` (S7), `Memory` (S11). Streams send it whatever
    /// transactions do, as PostgreSQL does with a message that is not transactional (PostgreSQL 15, 9.27.6).
    pub fn note<R: Wait>(
        &mut self,
        rt: &R,
        prefix: &str,
        content: &[u8],
    ) -> Result<u64, SessionFault>
        ensures start { IfOk result (λ start. start ≡ log_end self.old) }
        ensures ok { OnOk result (self.new ≡ after_note prefix.now content.now self.old) }
        ensures err { OnErr result (self.new ≡ self.old) }
        ensures refused { RefusedOrMemory (note_refusal prefix.now content.now self.old) result }
        ensures publisher { IsPublisher self.new }
    {
        let room = self.room();
        let alloc = self.live.allocator();
        match message_of(alloc, prefix, content) {
            Ok(_) if room == 0 => Err(SessionFault::LogFull),
            Ok(message) => Ok(push(&mut self.log, rt, alloc, message)?),
            Err(fault) => Err(refusal(fault, room)),
        }
    }
}

/// Adds a note to the log, and answers where it starts; or, where memory is refused, nothing.
fn push<L: LogName, R: Wait>(
    log: &mut LogWriter<L>,
    rt: &R,
    alloc: Global,
    message: Message,
) -> Result<u64, AllocError>
    requires message { FitsMessage message }
    requires fits { end_of FIRST_POSITION log.old.records + 2 ^ 14 < 2 ^ 64 }
    requires good { IsWellFormedLog
        (log.old.records ++ record_after log.old.records (Note (Change.Message message)) ∷ []) }
    ensures start { IfOk result (λ start. start ≡ end_of FIRST_POSITION log.old.records) }
    ensures ok { OnOk result
        (log.new.records ≡ log.old.records ++ record_after log.old.records (Note (Change.Message message)) ∷ []) }
    ensures err { OnErr result (log.new.records ≡ log.old.records) }
    ensures given { log.new.given ≡ log.old.given }
{
    let change = Change::Message(message);
    let logged = LoggedChange::of(alloc, &change);
    // Let go before the ways out, which keeps the proof short.
    drop(change);
    let receipt = log.push_note(rt, logged?)?;
    Ok(receipt.start)
}
