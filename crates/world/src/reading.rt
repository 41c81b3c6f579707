//! What a start reads of the publisher's log.

ghost use Rattle.std.specs.Prelude.{◌≡◌, ◌-◌, ◌≢◌, Err, List, ℕ, IfErr, IfOk, IfSome, OnErr, OnOk, length};
ghost use mathlib.Core.List.{IsPrefix};
ghost use Rattle.shared_log.specs.SeenPrefixes.{settled_records};
ghost use Rattle.shared_log.specs.Readers.{HasSeen, seen_of};
ghost use Rattle.txlog.specs.Giving.{kept_place};
ghost use Rattle.txlog.specs.Invariants.{IsPublisher};
ghost use Rattle.wal.specs.Restart.{restart, restart_place};
ghost use Rattle.walsender.specs.Serving.{BeginsAt, Reads, Serves, next_records};

use shared_log::{LogName, LogReader, ReadFault};
use std::alloc::Global;
use txlog::Publisher;
use walsender::{SendFault, Walsender};

/// Puts the reader where a stream that starts at this position begins to read the log as it stands, and answers the position
/// there. `NoEntry` or `Stale` (E1), where the log lets no reader in, and `Removed` (E3), where records that are needed were
/// given back, leave the reader at its place. It takes no memory.
pub fn resume<L: LogName>(
    publisher: &mut Publisher<L>,
    reader: &mut LogReader<L>,
    start: u64,
) -> Result<u64, ReadFault>
    ensures same { publisher.new ≡ publisher.old }
    ensures first { IfOk result (λ first. first ≡ restart start publisher.old.log) }
    ensures place { OnOk result (reader.new.place ≡ restart_place start publisher.old.log) }
    ensures begins { IfOk result
        (λ first. BeginsAt publisher.old.log start first reader.new.place) }
    ensures entry { result ≢ Err ReadFault.Memory }
{
    let count = publisher.tell(reader);
    reader.resume(start, count)
}

/// The place from which the log is kept for a slot that is confirmed at this position. None where the log doesn't let the reader in, and
/// where what such a slot needs was given back.
pub(crate) fn kept_place<L: LogName>(
    publisher: &mut Publisher<L>,
    reader: &mut LogReader<L>,
    confirmed: u64,
) -> Option<usize>
    ensures same { publisher.new ≡ publisher.old }
    ensures place { IfSome result (λ place. place ≡ kept_place confirmed publisher.old.log) }
{
    match resume(publisher, reader, confirmed) {
        Ok(_) => Some(reader.place().saturating_sub(1)),
        Err(_) => None,
    }
}

/// Reads up to `max` records of the log.
pub(crate) fn read_on<L: LogName>(
    alloc: Global,
    publisher: &mut Publisher<L>,
    walsender: &mut Walsender<L>,
    max: usize,
    clock: i64,
) -> Result<Result<(), SendFault>, ReadFault>
    ensures same { publisher.new ≡ publisher.old }
    ensures reads { IfOk result
        (Reads clock walsender.old.sender walsender.new.sender
        (next_records max walsender.old.reader.place publisher.old.log)) }
    ensures serves { (written : List ℕ) → Serves publisher.old.log written walsender.old →
        Serves publisher.old.log written walsender.new }
    ensures unread { OnErr result (walsender.new.sender ≡ walsender.old.sender) }
    ensures why { IfErr result (λ fault. HasSeen fault walsender.old.reader walsender.new.reader) }
    ensures told { IsPrefix publisher.old.log (settled_records walsender.new.reader.told) }
    ensures publisher { IsPublisher publisher.old }
{
    let unread = unread_of(publisher, &mut walsender.reader);
    walsender.read(alloc, unread.min(max), clock)
}

/// Tells the reader of the whole log, and answers how many records of it stand before it.
fn unread_of<L: LogName>(publisher: &mut Publisher<L>, reader: &mut LogReader<L>) -> usize
    ensures same { publisher.new ≡ publisher.old }
    ensures unread { result ≡ length publisher.old.log - reader.old.place }
    ensures told { IsPrefix publisher.old.log (settled_records reader.new.told) }
    ensures place { (seen_of reader.new ≡ seen_of reader.old)
        × (reader.new.place ≡ reader.old.place) }
    ensures publisher { IsPublisher publisher.old }
{
    let count = publisher.tell(reader);
    count.saturating_sub(reader.place())
}
