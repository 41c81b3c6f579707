//! A turn: from a reader of the log to whatever takes the stream.

ghost use Rattle.std.specs.Prelude.{◌≡◌, ◌+◌, ◌<◌, ◌≤◌, ◌++◌, [], ℕ, List, false, true, drop, length, take, Err, IfOk, OnErr, OnOk};
ghost use Rattle.std.specs.Io.KnownBytes.{Appends};
ghost use mathlib.Core.List.{IsPrefix};
ghost use Rattle.std.specs.declared.io.Error.{Error};
ghost use Rattle.wal.specs.Log.{IsWellFormedLog};
ghost use Rattle.shared_log.specs.SeenPrefixes.{settled_records};
ghost use Rattle.shared_log.specs.Readers.{HasSeen, seen_of};
ghost use Rattle.shared_log.specs.declared.fault.ReadFault.{ReadFault};
ghost use Rattle.walsender.specs.declared.fault.SendFault.{SendFault};
ghost use Rattle.walsender.specs.Faults.{fault_of_fetch, has_fetched, has_written};
ghost use Rattle.walsender.specs.Lent.{AreLastOf};
ghost use Rattle.walsender.specs.Turning.{IsRefused, ReadAndGave, fetched_from};
ghost use Rattle.walsender.specs.Outgoing.{IsOutgoing, MovesOut, held_of};

use crate::held::outgoing::Outgoing;
use crate::sender::Sender;
use crate::stream_turn::turn_fault::TurnFault;
use publication::Selection;
use reorder::Reorder;
use shared_log::{LogName, LogReader};
use std::alloc::Global;
use std::io;
use std::io::{ErrorKind, Write};

/// Fetches so many records at most, feeds them under this clock, and writes all that the sender holds, what it held before first. It
/// answers how many records it fetched: fewer than asked for where the reader has come to the end of what it sees.
///
/// `NoEntry` and `Stale` (U4), `Memory` (U3) and `Removed` (U5) come from the fetch, and change nothing but what the reader has
/// seen. At `Sender` (U1) the reader has moved on after the records that the sender refused, and nothing was written. At
/// `Write` (U2) the writer took a beginning of what was held, and the rest is held still; the connection is over. Any error of
/// the writer is `Write`, and so is a write that takes no bytes. It doesn't flush.
pub fn turn<L: LogName, W: Write>(
    alloc: Global,
    sender: &mut Sender,
    reader: &mut LogReader<L>,
    most: usize,
    clock: i64,
    out: &mut W,
) -> Result<usize, TurnFault>
    ensures grows { IsPrefix (seen_of reader.old) (seen_of reader.new) }
    ensures told { reader.new.told ≡ reader.old.told }
    ensures count { IfOk result
        (λ n. n ≡ length (fetched_from most reader.old.place (seen_of reader.new))) }
    ensures moved { has_fetched result ≡ true →
        reader.new.place
        ≡ reader.old.place + length (fetched_from most reader.old.place (seen_of reader.new)) }
    ensures fresh { has_fetched result ≡ true →
        IsPrefix (settled_records reader.new.told) (seen_of reader.new)
        × IsWellFormedLog (seen_of reader.new) }
    ensures why { (fault : ReadFault) → result ≡ Err (fault_of_fetch fault) →
        HasSeen fault reader.old reader.new }
    ensures unfetched { has_fetched result ≡ false →
        (reader.new.place ≡ reader.old.place) × (sender.new ≡ sender.old) }
    ensures sent { OnOk result
        ((given : List ℕ)
        × ReadAndGave clock sender.old sender.new
        (fetched_from most reader.old.place (seen_of reader.new)) given
        × (sender.new.held ≡ []) × Appends (W.contents out.old) (W.contents out.new) given) }
    ensures broken { (e : Error) → result ≡ Err (TurnFault.Write e) →
        (given : List ℕ)
        × ReadAndGave clock sender.old sender.new
        (fetched_from most reader.old.place (seen_of reader.new)) given
        × (0 < length sender.new.held)
        × Appends (W.contents out.old) (W.contents out.new) given }
    ensures refused { (e : SendFault) → result ≡ Err (TurnFault.Sender e) →
        IsRefused clock sender.old sender.new (fetched_from most reader.old.place (seen_of reader.new))
        e }
    ensures silent { has_written result ≡ false → out.new ≡ out.old }
{
    let records = reader.fetch(alloc, most)?;
    let count = records.len();
    let fed = sender.feed(records.as_slice(), clock);
    // Let go before the ways out, which keeps the proof short.
    drop(records);
    fed?;
    sender.write_held(out)?;
    Ok(count)
}

impl Sender {
    /// Writes what is held. Where the writer fails, or takes no bytes (`WriteZero`), the rest is held still.
    pub fn write_held<W: Write>(&mut self, out: &mut W) -> io::Result<()>
        ensures ok { OnOk result (self.new.held ≡ []) }
        ensures err { OnErr result (0 < length self.new.held) }
        ensures given { (given : List ℕ) × (self.old.held ≡ given ++ self.new.held)
            × Appends (W.contents out.old) (W.contents out.new) given }
        ensures rest { self.new
            ≡ record self.old { held = self.new.held; lent = self.new.lent } }
        ensures lent { AreLastOf self.new.lent self.old.lent }
    {
        self.outgoing.write(&self.selection, &mut self.reorder, out)
    }
}

impl Outgoing {
    /// Writes all bytes that are held, many frames at once. Where the writer fails or takes no bytes, the rest is held still.
    fn write<W: Write>(
        &mut self,
        selection: &Selection,
        reorder: &mut Reorder,
        out: &mut W,
    ) -> io::Result<()>
        requires { IsOutgoing selection.now reorder.old self.old }
        ensures ok { OnOk result (held_of selection.now reorder.new self.new ≡ []) }
        ensures err { OnErr result (0 < length (held_of selection.now reorder.new self.new)) }
        ensures given { (count : ℕ) × (count ≤ length (held_of selection.now reorder.old self.old))
            × MovesOut selection.now count reorder.old reorder.new self.old self.new
            × Appends (W.contents out.old) (W.contents out.new)
            (take count (held_of selection.now reorder.old self.old)) }
    {
        let (taken, written) = write_front(out, self.front.as_slice());
        self.front.advance(taken);
        written?;
        while self.fill_up(selection, reorder) {
            let (taken, written) = write_front(out, &self.frames[self.from..self.to]);
            self.from += taken;
            written?;
        }
        Ok(())
    }
}

/// Writes the bytes, and answers how many the writer took: fewer than all where it fails, or takes none (`WriteZero`).
pub fn write_front<W: Write>(out: &mut W, bytes: &[u8]) -> (usize, io::Result<()>)
    ensures within { result.0 ≤ length bytes.now }
    ensures taken { Appends (W.contents out.old) (W.contents out.new) (take result.0 bytes.now) }
    ensures ok { OnOk result.1 (result.0 ≡ length bytes.now) }
    ensures err { OnErr result.1 (result.0 < length bytes.now) }
{
    let mut taken = 0;
    while taken < bytes.len() {
        match out.write(&bytes[taken..]) {
            Ok(0) => return (taken, Err(io::Error::from(ErrorKind::WriteZero))),
            Ok(count) => taken += count,
            Err(error) => return (taken, Err(error)),
        }
    }
    (taken, Ok(()))
}
