//! Messages of who builds a service, outside of transactions.

ghost use Rattle.std.specs.Prelude.{◌≡◌, IfOk, OnErr};
ghost use Rattle.server_state.specs.Notices.{news_of_end};
ghost use Rattle.txlog.specs.Publishing.{RefusedOrMemory, after_note, log_end, note_refusal};

use crate::fault::NoteFault;
use crate::server_state::ServerState;
use crate::streams::spreading::Unheard;
use shared_log::LogName;
use slots::SlotName;
use std::sync::Wait;
use std::time::Clock;
use txlog::{Publisher, SessionFault};

impl<L: LogName + SlotName> ServerState<L> {
    /// Writes a message outside of all transactions, and answers the position where its record starts. Refused in this order, and
    /// then nobody hears of it: `Failed` where the log's disk has, `BadPrefix` (S13), `TooLarge` (S6) where its content is, `LogFull`
    /// (S7), `Memory` (S11). Streams that ask for messages send it at once, whatever transactions do (PostgreSQL 15, 9.27.6). Where
    /// the log is kept on a disk, it is answered once it is there.
    ///
    /// It waits until no `Transaction` is in progress, so a thread that has one ends it first.
    pub fn note<R: Wait + Clock>(
        &self,
        rt: &R,
        prefix: &str,
        content: &[u8],
    ) -> Result<u64, NoteFault> {
        if let Some(fault) = self.disk_fault(rt) {
            return Err(NoteFault::Disk(fault));
        }
        let mut publisher = self.publisher.lock(rt);
        self.make_room(rt, &mut *publisher);
        let noted = noted(rt, &mut *publisher, prefix, content);
        let end = publisher.end();
        self.let_go(rt, publisher);
        let (start, unheard) = noted?;
        self.tell(rt, unheard);
        match self.await_kept(rt, end) {
            Some(fault) => Err(NoteFault::Disk(fault)),
            None => Ok(start),
        }
    }
}

/// Writes a message into the log, and answers where its record starts, with what streams are to be told.
fn noted<L: LogName, R: Wait>(
    rt: &R,
    publisher: &mut Publisher<L>,
    prefix: &str,
    content: &[u8],
) -> Result<(u64, Unheard<L>), SessionFault>
    ensures start { IfOk result (λ noted. noted.0 ≡ log_end publisher.old) }
    ensures ok { IfOk result
        (λ noted. (publisher.new ≡ after_note prefix.now content.now publisher.old)
        × (noted.1 ≡ news_of_end (log_end publisher.new))) }
    ensures err { OnErr result (publisher.new ≡ publisher.old) }
    ensures refused { RefusedOrMemory (note_refusal prefix.now content.now publisher.old) result }
{
    let start = publisher.note(rt, prefix, content)?;
    Ok((start, Unheard::of_end(publisher.end())))
}
