//! The streams of a hub: how they begin and end, and what they wait for.

ghost use Rattle.std.specs.Prelude.{◌≡◌, IfOk, length};
ghost use Rattle.hub.specs.Refusals.{ahead_by};
ghost use Rattle.hub.specs.Streams.{BeginsAs, HasLearnt, asked_for};
ghost use Rattle.walsender.specs.Sending.{HasChunks};

use crate::connection::backend::name_of;
use crate::stream::grant::StreamGrant;
use crate::stream::new_stream::NewStream;
use crate::stream::refusals::of_start;
use crate::stream::starting::HubStart;
use crate::stream::streaming::Stream;
use connections::{ConnectionMailbox, SlotMonitor};
use server::{BackendFault, StartAhead};
use server_state::ServerState;
use shared_log::LogName;
use slots::SlotName;
use std::sync::Wait;
use walsender::begin;

/// Begins a stream, or answers why not: first what its user may not (`NotOwner`, A3, or `NotGranted`, A4), then the first of the
/// refusals in the order of `walsender::begin`; after them, that its slot was given up (`SlotLost`, L8), or that it would start
/// ahead of that (`StartAhead`, L7). Or `Memory`. The stream is of what is asked for, from the position on or from a later one that
/// its slot has confirmed, with at least as many chunks as the settings say.
pub(crate) fn begin_stream<L: LogName + SlotName, R: Wait>(
    start: &mut HubStart<'_, L, R>,
) -> Result<NewStream<L>, BackendFault>
    ensures { IfOk result
        (λ s. BeginsAs
        (asked_for start.old.server_state.now.publications
        start.old.options.now.publications start.old.options.now)
        start.old.position start.old.server_state.now.settings.chunks
        s.stream.value.walsender.sender) }
{
    if let Some(fault) = start.forbidden() {
        return Err(fault);
    }
    match begin(start) {
        Ok(grant) => match refusal_of(start, &grant) {
            Some(fault) => {
                take_back(start.rt, start.server_state, grant);
                Err(fault)
            }
            None => opened(start.rt, start.server_state, grant),
        },
        Err(fault) => Err(of_start(fault)),
    }
}

/// Why what was granted doesn't begin: the slot is another user's, or was given up, or the stream would start ahead of it.
fn refusal_of<L: LogName + SlotName, R: Wait>(
    start: &HubStart<'_, L, R>,
    grant: &StreamGrant<L>,
) -> Option<BackendFault> {
    // It may be another one than before, of the same name.
    let server_state = start.server_state;
    if !server_state.is_open_to(start.rt, start.slot, name_of(start.user)) {
        return Some(BackendFault::NotOwner);
    }
    let monitor = server_state.monitor_at(Some(grant.hold.place()))?;
    if monitor.is_lost(start.rt) {
        return Some(BackendFault::SlotLost);
    }
    match ahead_of(start, monitor) {
        Some(ahead) => Some(BackendFault::StartAhead(ahead)),
        None => None,
    }
}

/// Whether a stream would start ahead of all that its slot has confirmed and sent. Its last stream has told how far it came, since that
/// let the slot go.
fn ahead_of<L: LogName + SlotName, R: Wait>(
    start: &HubStart<'_, L, R>,
    monitor: &SlotMonitor,
) -> Option<StartAhead> {
    if start.server_state.settings.allows_start_ahead {
        return None;
    }
    ahead_by(start.position, monitor.reached(start.rt))
}

/// That the start lies ahead of what was reached, if it does.
fn ahead_by(start: u64, reached: u64) -> Option<StartAhead>
    ensures { result ≡ ahead_by start reached }
{
    if reached < start {
        Some(StartAhead { start, reached })
    } else {
        None
    }
}

/// What was granted goes back.
#[inline(never)]
fn take_back<L: LogName + SlotName, R: Wait>(
    rt: &R,
    server_state: &ServerState<L>,
    grant: StreamGrant<L>,
) {
    let stream = Stream::open(server_state.alloc, grant);
    server_state.give_back(rt, stream.end(&server_state.slots));
}

/// The stream of a grant, or, where memory is refused, nothing: then what was granted goes back.
// What makes it has a stack frame of its own: on the stacks of both threads it took a page.
#[inline(never)]
fn opened<L: LogName + SlotName, R: Wait>(
    rt: &R,
    server_state: &ServerState<L>,
    grant: StreamGrant<L>,
) -> Result<NewStream<L>, BackendFault>
    ensures asked { IfOk result
        (λ s. (s.stream.value.walsender.sender.selection ≡ grant.selection)
        × (s.stream.value.walsender.sender.start ≡ grant.start)) }
    ensures chunks { IfOk result
        (λ s. HasChunks s.stream.value.walsender.sender (length grant.arena)) }
{
    match NewStream::open(server_state.alloc, grant) {
        Ok(stream) => {
            server_state.count_stream(rt);
            Ok(stream)
        }
        Err(stream) => {
            server_state.give_back(rt, stream.end(&server_state.slots));
            Err(BackendFault::Memory)
        }
    }
}

/// Ends a stream: its slot is free, and its reader and seat go back to the pool.
#[inline(never)]
pub(crate) fn end_stream<L: LogName + SlotName, R: Wait>(
    rt: &R,
    server_state: &ServerState<L>,
    stream: Box<Stream<L>>,
) {
    let reader_seat = Box::into_inner(stream).end(&server_state.slots);
    server_state.give_back(rt, reader_seat);
}

/// Waits until a stream or its connection has something to do and it isn't held, and tells the stream of the latest commit.
pub(crate) fn await_stream<L: LogName + SlotName, R: Wait>(
    rt: &R,
    server_state: &ServerState<L>,
    mailbox: &ConnectionMailbox<NewStream<L>>,
    monitor: &SlotMonitor,
    stream: &mut Stream<L>,
)
    ensures learnt { HasLearnt stream.old.walsender stream.new.walsender }
    ensures hold { stream.new.hold ≡ stream.old.hold }
{
    if let Some(latch) = server_state.latches.get(stream.latch()) {
        latch.wait(rt, stream.position());
    }
    server_state.await_release(rt, mailbox, monitor, stream.latch());
    inform(rt, server_state, stream);
}

/// Tells the stream of the latest commit.
pub(crate) fn inform<L: LogName + SlotName, R: Wait>(
    rt: &R,
    server_state: &ServerState<L>,
    stream: &mut Stream<L>,
)
    ensures learnt { HasLearnt stream.old.walsender stream.new.walsender }
    ensures hold { stream.new.hold ≡ stream.old.hold }
{
    stream.learn(&*server_state.notice.lock(rt));
}
