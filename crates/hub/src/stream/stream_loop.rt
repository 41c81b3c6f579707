//! How a stream is written: turn by turn, as work comes, until something else is to be said or the connection is over.

ghost use Rattle.std.specs.Prelude.{◌≡◌, [], IfErr, OnOk};
ghost use Rattle.shared_log.specs.Readers.{seen_of};
ghost use Rattle.walsender.specs.Serving.{Serves};
ghost use Rattle.std.specs.Io.KnownBytes.{Appends};
ghost use Rattle.hub.specs.Streams.{StreamsOn, WordsBehind, words_of};
ghost use Rattle.hub.specs.Turns.{CameInPart, Ended, EndsBy, EndsTurns, LeavesSlot, TakesTurns, end_of_fault, standing, stream_error_of};

use crate::stream::streaming::Stream;
use crate::stream::work_backend::WorkBackend;
use connections::{ConnectionEnd, StreamError, Work, write_stream_error};
use server::Phase;
use shared_log::LogName;
use slots::{SlotName, SlotTable};
use std::io;
use std::io::Write;
use std::sync::Wait;
use walsender::{SendFault, TurnFault, write_front};

/// Writes a stream, and after it what is said at its end. Where its client did not ask for that, the connection is over, and
/// what the client flushed last is confirmed too: all that it sent has been read by then. `Client` where the client is gone or
/// can't be written to, `FullArena`, `NoEntry`, `Removed` and `Memory` of a turn's fault (`end_of`), which the client is told.
pub(crate) fn write_stream<L: LogName + SlotName, R: Wait, D: WorkBackend<L>, W: Write>(
    rt: &R,
    backend: &mut D,
    slots: &SlotTable<L>,
    stream: &mut Stream<L>,
    first: Work,
    to: &mut W,
) -> Result<(), ConnectionEnd>
    requires { ∥ Serves (seen_of stream.old.walsender.reader) [] stream.old.walsender ∥₁ }
    ensures slot { LeavesSlot D.told stream.old.hold.lease.place first result backend.old
        (standing stream.old.walsender stream.old.hold.seat (W.contents to.old)) backend.new
        stream.new.hold.seat (W.contents to.new) }
{
    let ended = write_to_end(rt, backend, slots, stream, first, to);
    if ended.is_err() {
        let last = backend.last();
        stream.confirm_any(slots, last.flushed);
    }
    ended
}

/// Writes a stream, and after it what is said at its end, or why it ends.
fn write_to_end<L: LogName + SlotName, R: Wait, D: WorkBackend<L>, W: Write>(
    rt: &R,
    backend: &mut D,
    slots: &SlotTable<L>,
    stream: &mut Stream<L>,
    first: Work,
    to: &mut W,
) -> Result<(), ConnectionEnd>
    ensures turns { EndsTurns D.told stream.old.hold.lease.place first result backend.old
        (standing stream.old.walsender stream.old.hold.seat (W.contents to.old)) backend.new
        stream.new.walsender.sender.position stream.new.hold.seat (W.contents to.new) }
    ensures lease { stream.new.hold.lease ≡ stream.old.hold.lease }
{
    let last = run(rt, backend, slots, stream, first, to);
    finish(stream, last, to)
}

/// Writes what is said after the last turn of a stream, or why that failed.
fn finish<L: LogName + SlotName, W: Write>(
    stream: &mut Stream<L>,
    last: Result<Work, TurnFault>,
    to: &mut W,
) -> Result<(), ConnectionEnd>
    ensures by { EndsBy last result (W.contents to.old) (W.contents to.new) }
    ensures position { stream.new.walsender.sender.position ≡ stream.old.walsender.sender.position }
    ensures hold { stream.new.hold ≡ stream.old.hold }
{
    match last {
        Ok(last) => {
            say(&last, to)?;
            if last.phase == Phase::Stopping {
                Ok(())
            } else {
                Err(ConnectionEnd::Client)
            }
        }
        Err(fault) => {
            let end = end_of(&fault);
            let _ = tell(stream, end, to);
            Err(end)
        }
    }
}

/// Takes turns of a stream until something else is to be said than the stream, and answers that.
fn run<L: LogName + SlotName, R: Wait, D: WorkBackend<L>, W: Write>(
    rt: &R,
    backend: &mut D,
    slots: &SlotTable<L>,
    stream: &mut Stream<L>,
    first: Work,
    to: &mut W,
) -> Result<Work, TurnFault>
    ensures serves { StreamsOn stream.old.walsender stream.new.walsender (W.contents to.old)
        (W.contents to.new) }
    ensures turns { TakesTurns D.told stream.old.hold.lease.place (Ended result) first backend.old
        (standing stream.old.walsender stream.old.hold.seat (W.contents to.old)) backend.new
        (standing stream.new.walsender stream.new.hold.seat (W.contents to.new)) }
    ensures lease { stream.new.hold.lease ≡ stream.old.hold.lease }
{
    stream.go_on(slots, &first, to)?;
    let mut work = first;
    for _ in rt.forever() {
        if !work.lets_stream() {
            break;
        }
        work = backend.next(stream);
        stream.go_on(slots, &work, to)?;
    }
    Ok(work)
}

/// Writes the words of what was taken. `Client` where the connection is over after them, or can't be written to.
pub(crate) fn say<W: Write>(work: &Work, to: &mut W) -> Result<(), ConnectionEnd>
    ensures said { OnOk result
        (Appends (W.contents to.old) (W.contents to.new) work.now.said.items) }
    ensures err { IfErr result (λ end. end ≡ ConnectionEnd.Client) }
    ensures part { CameInPart work.now.said.items (W.contents to.old) (W.contents to.new) }
{
    let (_, written) = write_front(to, work.said.as_slice());
    if written.is_err() || work.phase == Phase::Closed {
        return Err(ConnectionEnd::Client);
    }
    Ok(())
}

/// Tells the client why its stream ends, after what is held.
fn tell<L: LogName + SlotName, W: Write>(
    stream: &mut Stream<L>,
    end: ConnectionEnd,
    to: &mut W,
) -> io::Result<()>
    ensures behind { OnOk result
        (WordsBehind (words_of (stream_error_of end)) stream.old.walsender stream.new.walsender
        (W.contents to.old) (W.contents to.new)) }
    ensures position { stream.new.walsender.sender.position ≡ stream.old.walsender.sender.position }
    ensures hold { stream.new.hold ≡ stream.old.hold }
{
    match stream_error_of(end) {
        Some(stream_error) => {
            stream.write_rest(to)?;
            write_stream_error(stream.alloc(), stream_error, to)
        }
        None => Ok(()),
    }
}

/// How the connection of a stream ends whose turn has failed so.
fn end_of(fault: &TurnFault) -> ConnectionEnd
    ensures { result ≡ end_of_fault fault.now }
{
    match fault {
        TurnFault::Write(_) => ConnectionEnd::Client,
        TurnFault::Sender(SendFault::ArenaFull) => ConnectionEnd::FullArena,
        TurnFault::Memory | TurnFault::Sender(_) => ConnectionEnd::Memory,
        TurnFault::NoEntry | TurnFault::Stale => ConnectionEnd::NoEntry,
        TurnFault::Removed => ConnectionEnd::Removed,
    }
}

/// What the client is told, if it can still be.
fn stream_error_of(end: ConnectionEnd) -> Option<StreamError>
    ensures { result ≡ stream_error_of end }
{
    match end {
        ConnectionEnd::Memory => Some(StreamError::Memory),
        ConnectionEnd::FullArena => Some(StreamError::FullArena),
        ConnectionEnd::NoEntry => Some(StreamError::NoEntry),
        ConnectionEnd::Removed => Some(StreamError::Removed),
        _ => None,
    }
}
