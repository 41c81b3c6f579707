//! What a commit publishes, change by change (PostgreSQL 15, 55.5.3), straight from where the changes lie.

ghost use Rattle.std.specs.Prelude.{◌≡◌, ◌+◌, ◌<◌, ◌≤◌, ◌==◌, ◌^◌, ◌++◌, ◌∷◌, [], ℕ, None, FitsSigned, IfOk, IfSome, IsOk, MatchBool, OnErr, OnOk, Some, drop, length, map, not, true, vec_len};
ghost use Rattle.std.specs.Int.{w64};
ghost use Rattle.std.specs.List.{AllByRecursion};
ghost use Rattle.publication.specs.Selection.{relation};
ghost use Rattle.pgoutput.specs.Items.{FitsPublished};
ghost use Rattle.tables.specs.declared.changes.change.Change.{Change};
ghost use Rattle.wal.specs.declared.record.Body.TheVariants.{Change as Changed};
ghost use Rattle.reorder.specs.Ready.{IsReadyIn, ready_entries};
ghost use Rattle.reorder.specs.declared.ready.RecordOutcome.TheVariants as steps;
ghost use Rattle.reorder.specs.Settled.{AreLentIn, ready_chunks};
ghost use Rattle.reorder.specs.Taking.{ReorderState, readied_changes};
ghost use Rattle.walsender.specs.Published.{published_changes, published_note, published_with};
ghost use Rattle.walsender.specs.Sending.{IsHeaderOf, published_by_record};
ghost use Rattle.walsender.specs.Spelled.{Yields};
ghost use Rattle.walsender.specs.Waiting.{ready_states, ready_states_with};
ghost use Rattle.walsender.specs.Lent.{lent_with};
ghost use Rattle.walsender.specs.Outgoing.{Grows, IsOutgoing, StaysTaken, StaysTidy, lent_by_step, lent_of};

use crate::commit_frames::header::Header;
use crate::held::outgoing::Outgoing;
use publication::{MAX_MESSAGE_LENGTH, Selection, room_for};
use reorder::{CommittedChanges, RecordOutcome, Reorder};
use std::alloc::AllocError;
use wal::{Body, LoggedChange, Record};

impl Outgoing {
    /// Adds what a record publishes, by what it made ready. Where memory is refused, it adds nothing. What isn't to wait goes back.
    pub(crate) fn add_record(
        &mut self,
        selection: &Selection,
        start: u64,
        reorder: &mut Reorder,
        next: &Record,
        step: RecordOutcome,
        clock: i64,
        room: &mut Vec<u8>,
    ) -> Result<(), AllocError>
        requires good { IsOutgoing selection.now reorder.old self.old }
        requires lent { AreLentIn reorder.old
            (ready_states_with (ready_states self.old.waiting.items) step) }
        ensures grows { Grows selection.now clock
            (published_by_record selection.now start next.now
            (readied_changes reorder.old step)) result
            reorder.old reorder.new self.old self.new }
        ensures fit { OnOk result
            (AllByRecursion (FitsPublished (relation selection.now))
            (published_by_record selection.now start next.now (readied_changes reorder.old step))) }
        ensures taken { StaysTaken reorder.old reorder.new self.new }
        ensures tidy { StaysTidy reorder.old
            (ready_states_with (ready_states self.old.waiting.items) step)
            reorder.new self.new }
        ensures lent { OnOk result
            (lent_of reorder.new self.new
            ≡ lent_of reorder.old self.old
            ++ lent_by_step
            (published_by_record selection.now start next.now (readied_changes reorder.old step))
            reorder.old step) }
        ensures size { length reorder.new.strands.pool.arena
            ≡ length reorder.old.strands.pool.arena }
        ensures running { reorder.new.failed ≡ reorder.old.failed }
        ensures change { (xid : ℕ) (change : Change) → next.now.body ≡ Changed xid change →
            step ≡ steps.Quiet → IsOk result }
    {
        match step {
            RecordOutcome::Quiet => self.add_note(selection, start, next, clock, room),
            RecordOutcome::Ready(ready) => {
                self.publish(selection, start, reorder, next, ready, clock)
            }
        }
    }

    /// Adds what a record publishes that makes nothing ready: the message of a note that starts at the start position or later. Where
    /// memory is refused, it adds nothing.
    fn add_note(
        &mut self,
        selection: &Selection,
        start: u64,
        next: &Record,
        clock: i64,
        room: &mut Vec<u8>,
    ) -> Result<(), AllocError>
        ensures grows { (s : ReorderState) → IsOutgoing selection.now s self.old →
            Grows selection.now clock (published_by_record selection.now start next.now None) result
            s s self.old self.new }
        ensures fit { OnOk result
            (AllByRecursion (FitsPublished (relation selection.now))
            (published_by_record selection.now start next.now None)) }
        ensures waiting { self.new.waiting.items ≡ self.old.waiting.items }
        ensures change { (xid : ℕ) (change : Change) → next.now.body ≡ Changed xid change →
            IsOk result }
    {
        let Body::Note(note) = &next.body else {
            return Ok(());
        };
        if next.start < start {
            return Ok(());
        }
        self.put_note(selection, next.start, next.end, note, clock, room)
    }

    fn put_note(
        &mut self,
        selection: &Selection,
        start: u64,
        end: u64,
        note: &LoggedChange,
        clock: i64,
        room: &mut Vec<u8>,
    ) -> Result<(), AllocError>
        ensures grows { (s : ReorderState) → IsOutgoing selection.now s self.old →
            Grows selection.now clock (published_note selection.now start end note.now) result s s
            self.old self.new }
        ensures fit { OnOk result
            (AllByRecursion (FitsPublished (relation selection.now))
            (published_note selection.now start end note.now)) }
        ensures waiting { self.new.waiting.items ≡ self.old.waiting.items }
    {
        make_room(room)?;
        let body = note.body();
        let Some(length) = selection.put_note(start, body, room.as_mut_slice()) else {
            return Ok(());
        };
        self.note(end, clock, &room[..length])
    }

    /// Adds the block of the transaction that a record commits, if it is to have one; else what is ready goes back. Where memory is
    /// refused, it adds nothing.
    fn publish(
        &mut self,
        selection: &Selection,
        start: u64,
        reorder: &mut Reorder,
        next: &Record,
        mut ready: CommittedChanges,
        clock: i64,
    ) -> Result<(), AllocError>
        requires good { IsOutgoing selection.now reorder.old self.old }
        requires lent { AreLentIn reorder.old (ready_states self.old.waiting.items ++ ready ∷ []) }
        ensures grows { Grows selection.now clock
            (published_by_record selection.now start next.now
            (Some (ready_entries reorder.old.strands.pool ready)))
            result reorder.old reorder.new self.old self.new }
        ensures fit { OnOk result
            (AllByRecursion (FitsPublished (relation selection.now))
            (published_by_record selection.now start next.now
            (Some (ready_entries reorder.old.strands.pool ready)))) }
        ensures taken { StaysTaken reorder.old reorder.new self.new }
        ensures tidy { StaysTidy reorder.old (ready_states self.old.waiting.items ++ ready ∷ [])
            reorder.new self.new }
        ensures lent { OnOk result
            (lent_of reorder.new self.new
            ≡ lent_of reorder.old self.old
            ++ map (lent_with (ready_chunks reorder.old.strands.pool.arena ready))
            (published_by_record selection.now start next.now
            (Some (ready_entries reorder.old.strands.pool ready)))) }
        ensures size { length reorder.new.strands.pool.arena
            ≡ length reorder.old.strands.pool.arena }
        ensures running { reorder.new.failed ≡ reorder.old.failed }
    {
        match judge(selection, start, next, reorder, &mut ready) {
            Some(header) => self.queue(selection, reorder, ready, header, clock),
            None => {
                reorder.finish(ready);
                Ok(())
            }
        }
    }

    /// Adds the block of a transaction. Where memory is refused, it adds nothing, and what is ready goes back.
    fn queue(
        &mut self,
        selection: &Selection,
        reorder: &mut Reorder,
        ready: CommittedChanges,
        header: Header,
        clock: i64,
    ) -> Result<(), AllocError>
        requires good { IsOutgoing selection.now reorder.old self.old }
        requires lent { AreLentIn reorder.old (ready_states self.old.waiting.items ++ ready ∷ []) }
        requires some { 0 < length ready.places }
        ensures grows { let entries = ready_entries reorder.old.strands.pool ready in
            Grows selection.now clock (published_with selection.now entries header ∷ []) result
            reorder.old reorder.new self.old self.new }
        ensures taken { StaysTaken reorder.old reorder.new self.new }
        ensures tidy { StaysTidy reorder.old (ready_states self.old.waiting.items ++ ready ∷ [])
            reorder.new self.new }
        ensures lent { OnOk result
            (lent_of reorder.new self.new
            ≡ lent_of reorder.old self.old
            ++ lent_with (ready_chunks reorder.old.strands.pool.arena ready)
            (published_with selection.now (ready_entries reorder.old.strands.pool ready) header)
            ∷ []) }
        ensures size { length reorder.new.strands.pool.arena
            ≡ length reorder.old.strands.pool.arena }
        ensures running { reorder.new.failed ≡ reorder.old.failed }
    {
        match self.commit(selection, ready, header, clock) {
            Ok(()) => Ok(()),
            Err(ready) => {
                reorder.finish(ready);
                Err(AllocError)
            }
        }
    }
}

/// What the record commits, if the stream is to have it.
fn judge(
    selection: &Selection,
    start: u64,
    next: &Record,
    reorder: &Reorder,
    ready: &mut CommittedChanges,
) -> Option<Header>
    requires held { IsReadyIn reorder.now.strands.pool ready.old }
    ensures value { IsHeaderOf selection.now start next.now
        (ready_entries reorder.now.strands.pool ready.old) result }
    ensures fit { AllByRecursion (FitsPublished (relation selection.now))
        (published_by_record selection.now start next.now
        (Some (ready_entries reorder.now.strands.pool ready.old))) }
    ensures some { IfSome result (λ _. 0 < length ready.old.places) }
    ensures ready { ready.new ≡ ready.old }
{
    selection.messages_fit();
    header_of(selection, start, next, reorder, ready)
}

/// What the record commits, if it starts at the start position or later and a change of it has a message.
fn header_of(
    selection: &Selection,
    start: u64,
    next: &Record,
    reorder: &Reorder,
    ready: &mut CommittedChanges,
) -> Option<Header>
    requires held { IsReadyIn reorder.now.strands.pool ready.old }
    ensures value { IsHeaderOf selection.now start next.now
        (ready_entries reorder.now.strands.pool ready.old) result }
    ensures numbers { IfSome result
        (λ h. (h.start < 2 ^ 64) × (h.end < 2 ^ 64) × FitsSigned w64 h.time × (h.xid < 2 ^ 32)) }
    ensures some { IfSome result (λ _. 0 < length ready.old.places) }
    ensures ready { ready.new ≡ ready.old }
{
    let Body::Commit(xid, time) = next.body else {
        return None;
    };
    if next.start < start {
        return None;
    }
    if !has_message(selection, reorder, ready) {
        return None;
    }
    Some(Header::new(next.start, next.end, time, xid))
}

/// Whether a change that is ready has a message.
fn has_message(selection: &Selection, reorder: &Reorder, ready: &mut CommittedChanges) -> bool
    requires held { IsReadyIn reorder.now.strands.pool ready.old }
    ensures value { result
        ≡ not
        (length
        (published_changes selection.now (ready_entries reorder.now.strands.pool ready.old))
        == 0) }
    ensures some { result ≡ true → 0 < length ready.old.places }
    ensures ready { ready.new ≡ ready.old }
{
    for k in 0..ready.count() {
        if tells_entry(selection, reorder, ready, k) {
            return true;
        }
    }
    false
}

/// Whether the k-th change that is ready has a message.
fn tells_entry(
    selection: &Selection,
    reorder: &Reorder,
    ready: &mut CommittedChanges,
    k: usize,
) -> bool
    requires held { IsReadyIn reorder.now.strands.pool ready.old }
    requires within { k < length ready.old.places }
    ensures told { MatchBool result
        (0
        < length
        (published_changes selection.now
        (drop k (ready_entries reorder.now.strands.pool ready.old))))
        (published_changes selection.now
        (drop k (ready_entries reorder.now.strands.pool ready.old))
        ≡ published_changes selection.now
        (drop (k + 1) (ready_entries reorder.now.strands.pool ready.old))) }
    ensures ready { ready.new ≡ ready.old }
{
    let (_, body) = reorder.entry(ready, k);
    selection.has_message(body)
}

/// A message may not have room.
#[derive(Clone, Copy)]
pub(crate) struct NoRoom;

/// Room for the message of any note.
fn make_room(room: &mut Vec<u8>) -> Result<(), AllocError>
    ensures { OnOk result (MAX_MESSAGE_LENGTH ≤ vec_len room.new) }
{
    if room.len() < MAX_MESSAGE_LENGTH {
        room.resize(MAX_MESSAGE_LENGTH, 0)?;
    }
    Ok(())
}

/// Writes the message of the k-th change that is ready to the front of the room, and answers the change's position and how long the
/// message is. None where the change has no message, and an error where the room may not be enough for one.
pub(crate) fn put_entry(
    selection: &Selection,
    reorder: &Reorder,
    ready: &mut CommittedChanges,
    k: usize,
    room: &mut [u8],
) -> Result<Option<(u64, usize)>, NoRoom>
    requires held { IsReadyIn reorder.now.strands.pool ready.old }
    requires within { k < length ready.old.places }
    ensures yields { IfOk result
        (λ put. Yields selection.now
        (published_changes selection.now
        (drop k (ready_entries reorder.now.strands.pool ready.old)))
        (published_changes selection.now
        (drop (k + 1) (ready_entries reorder.now.strands.pool ready.old)))
        put room.new) }
    ensures full { OnErr result (length room.new < MAX_MESSAGE_LENGTH) }
    ensures ready { ready.new ≡ ready.old }
    ensures same { length room.new ≡ length room.old }
{
    let (position, body) = reorder.entry(ready, k);
    if room.len() < room_for(body.len()) {
        return Err(NoRoom);
    }
    match selection.put(position, body, room) {
        Some(length) => Ok(Some((position, length))),
        None => Ok(None),
    }
}
