//! A log that goes on by the entries of a segment.

ghost use Rattle.std.specs.Prelude.{◌≡◌, OnErr, OnOk};
ghost use Rattle.segments.specs.Kinds.{is_beside};
ghost use Rattle.segments.specs.Recovery.{Replays, ReplaysEntry, ReplaysOne};
ghost use Rattle.txlog.specs.Invariants.{IsPublisher};
ghost use Rattle.txlog.specs.Replaying.{IsBeside};

use crate::entry::Entry;
use crate::records::reading::read_record;
use crate::records::record_body::RecordBody;
use crate::records::writing::NOTE_TAG;
use crate::recovery_fault::RecoveryFault;
use shared_log::LogName;
use std::alloc::Global;
use std::sync::Wait;
use txlog::Publisher;

/// Goes on by the record of each entry that tells one. Where one can't be read, or can't come next, it is answered why; those before
/// it stand in the log then.
pub fn replay<L: LogName, R: Wait>(
    rt: &R,
    alloc: Global,
    publisher: &mut Publisher<L>,
    entries: &[Entry],
) -> Result<(), RecoveryFault>
    ensures ok { OnOk result (Replays entries.now publisher.old.log publisher.new.log) }
    ensures beside { IsBeside publisher.old publisher.new }
{
    for entry in entries {
        replay_entry(rt, alloc, publisher, entry.body.as_slice())?;
    }
    Ok(())
}

/// Whether an entry tells something else than a record of the log: of a slot, or whose log it is.
pub fn is_beside(bytes: &[u8]) -> bool
    ensures { result ≡ is_beside bytes.now }
{
    match bytes.first() {
        Some(tag) => NOTE_TAG < *tag,
        None => false,
    }
}

/// Goes on by the record that these bytes tell, if they tell one. It is answered why where that can't be read, or can't come next;
/// the log is as it was then.
pub fn replay_entry<L: LogName, R: Wait>(
    rt: &R,
    alloc: Global,
    publisher: &mut Publisher<L>,
    bytes: &[u8],
) -> Result<(), RecoveryFault>
    ensures ok { OnOk result (ReplaysEntry bytes.now publisher.old.log publisher.new.log) }
    ensures err { OnErr result (publisher.new.log ≡ publisher.old.log) }
    ensures beside { IsBeside publisher.old publisher.new }
{
    if is_beside(bytes) {
        return Ok(());
    }
    replay_one(rt, alloc, publisher, bytes)
}

/// Goes on by the record that these bytes tell.
fn replay_one<L: LogName, R: Wait>(
    rt: &R,
    alloc: Global,
    publisher: &mut Publisher<L>,
    bytes: &[u8],
) -> Result<(), RecoveryFault>
    ensures ok { OnOk result (ReplaysOne bytes.now publisher.old.log publisher.new.log) }
    ensures err { OnErr result (publisher.new.log ≡ publisher.old.log) }
    ensures beside { IsBeside publisher.old publisher.new }
{
    match read_record(alloc, bytes)? {
        RecordBody::Assign(subtransaction, parent) => {
            publisher.replay_savepoint(rt, subtransaction, parent)?
        }
        RecordBody::Change(xid, change) => publisher.replay_change(rt, xid, change)?,
        RecordBody::AbortSub(xid) => publisher.replay_rollback(rt, xid)?,
        RecordBody::Abort(xid) => publisher.replay_abort(rt, xid)?,
        RecordBody::Commit(xid, time) => publisher.replay_commit(rt, xid, time)?,
        RecordBody::Note(message) => publisher.replay_note(rt, &message)?,
    }
    Ok(())
}
