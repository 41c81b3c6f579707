//! The frames of changes, made one by one into a slice that has room for them (PostgreSQL 15, 55.4).
#![tactic(auto, using(row_messages::proofs::Written::sizes))]

ghost use Rattle.std.specs.Prelude.{◌≡◌, ◌⊎◌, ◌==◌, ℕ, true, ◌+◌, ◌<◌, ◌≤◌, ◌^◌, [], ◌∷◌, List, None, IfSome, IsSome, false, length, reverse, take, vec_capacity};
ghost use Rattle.std.specs.List.{list_any};
ghost use Rattle.pgoutput.specs.Logical.{spell_logical};
ghost use Rattle.pgoutput.specs.declared.logical.Logical.TheVariants as logical;
ghost use Rattle.publication.specs.Selection.{relation, selected_oids, selected_table};
ghost use Rattle.pgoutput.specs.Items.{is_relation_sent, relations_due};
ghost use Rattle.reorder.specs.Ready.{IsReadyIn};
ghost use Rattle.walsender.specs.Spelled.{oids_in};
ghost use Rattle.walsender.specs.Waiting.{AreSelected, MakesOf, frame_head};

use crate::commit_frames::named::named_in;
use crate::commit_frames::publishing::put_entry;
use crate::held::committed_transaction::CommittedTransaction;
use copyboth::XLOGDATA;
use frames::COPY_DATA;
use pqformat::{Cursor, write_byte, write_int32, write_int64};
use publication::{MAX_MESSAGE_LENGTH, Selection};
use reorder::Reorder;

/// The bytes of a frame before its message.
pub(crate) const HEAD_LENGTH: usize = 30;

/// The longest frame of a change or of a Relation.
pub(crate) const MAX_FRAME_LENGTH: usize = HEAD_LENGTH + MAX_MESSAGE_LENGTH;

/// Where there is less room no frame is made: a Commit's and the head of any other have this much.
pub(crate) const LEAST_ROOM: usize = 64;

/// Makes the next frame of a transaction's changes at the front of `out`, and answers how long it is: the Relation of a table that is
/// due, or else the message of the next change that has one. 0 where no change that has one is left, and where its frame may not have
/// room. It takes no memory.
pub(crate) fn next_frame(
    selection: &Selection,
    reorder: &Reorder,
    waiting: &mut CommittedTransaction,
    relations_sent: &mut Vec<u32>,
    out: &mut [u8],
) -> usize
    requires held { IsReadyIn reorder.now.strands.pool waiting.old.ready }
    requires room { LEAST_ROOM ≤ length out.old }
    requires bounded { length out.old ≤ MAX_FRAME_LENGTH }
    requires sent { AreSelected selection.now (reverse relations_sent.old.items) }
    requires capacity { length (selected_oids selection.now) ≤ vec_capacity relations_sent.old }
    ensures makes { MakesOf selection.now reorder.now.strands.pool waiting.old waiting.new
        relations_sent.old.items relations_sent.new.items (take result out.new) }
    ensures within { result ≤ length out.new }
    ensures over { result ≡ 0 → MAX_FRAME_LENGTH ≤ length out.new →
        length waiting.new.ready.places ≤ waiting.new.next }
    ensures same { length out.new ≡ length out.old }
    ensures waiting { waiting.new ≡ record waiting.old { next = waiting.new.next } }
    ensures sent { AreSelected selection.now (reverse relations_sent.new.items) }
    ensures capacity { vec_capacity relations_sent.new ≡ vec_capacity relations_sent.old }
{
    while waiting.next < waiting.ready.count() {
        let next = waiting.next;
        let length = frame_at_next(selection, reorder, waiting, relations_sent, out);
        if length > 0 || waiting.next == next {
            return length;
        }
    }
    0
}

/// Makes a frame for the change that is next: none where it has no message, or may not have room.
fn frame_at_next(
    selection: &Selection,
    reorder: &Reorder,
    waiting: &mut CommittedTransaction,
    relations_sent: &mut Vec<u32>,
    out: &mut [u8],
) -> usize
    requires held { IsReadyIn reorder.now.strands.pool waiting.old.ready }
    requires next { waiting.old.next < length waiting.old.ready.places }
    requires counted { length waiting.old.ready.places < 2 ^ 64 }
    requires room { LEAST_ROOM ≤ length out.old }
    requires bounded { length out.old ≤ MAX_FRAME_LENGTH }
    requires sent { AreSelected selection.now (reverse relations_sent.old.items) }
    requires capacity { length (selected_oids selection.now) ≤ vec_capacity relations_sent.old }
    ensures makes { MakesOf selection.now reorder.now.strands.pool waiting.old waiting.new
        relations_sent.old.items relations_sent.new.items (take result out.new) }
    ensures within { result ≤ length out.new }
    ensures moves { result ≡ 0 → (waiting.new.next ≡ waiting.old.next + 1)
        ⊎ ((waiting.new.next ≡ waiting.old.next) × (length out.new < MAX_FRAME_LENGTH)) }
    ensures next { waiting.new.next ≤ length waiting.new.ready.places }
    ensures same { length out.new ≡ length out.old }
    ensures waiting { waiting.new ≡ record waiting.old { next = waiting.new.next } }
    ensures sent { AreSelected selection.now (reverse relations_sent.new.items) }
    ensures capacity { vec_capacity relations_sent.new ≡ vec_capacity relations_sent.old }
{
    let (head, room) = out.split_at_mut(HEAD_LENGTH);
    let Ok(put) = put_entry(selection, reorder, &mut waiting.ready, waiting.next, room) else {
        return 0;
    };
    let Some((position, length)) = put else {
        waiting.next += 1;
        return 0;
    };
    let named = named_in(&room[..length]);
    let length = match first_due(relations_sent.as_slice(), named) {
        Some(oid) => {
            if room.len() < MAX_MESSAGE_LENGTH {
                return 0;
            }
            put_due(selection, oid, relations_sent, room)
        }
        None => {
            waiting.next += 1;
            length
        }
    };
    put_head(head, position, waiting.clock, length);
    HEAD_LENGTH + length
}

/// Writes the Relation of a table that is due, and notes that it is sent.
fn put_due(selection: &Selection, oid: u32, relations_sent: &mut Vec<u32>, room: &mut [u8]) -> usize
    requires room { length room.old ≡ MAX_MESSAGE_LENGTH }
    requires known { IsSome (selected_table selection.now oid) }
    requires due { is_relation_sent (reverse relations_sent.old.items) oid ≡ false }
    requires sent { AreSelected selection.now (reverse relations_sent.old.items) }
    requires capacity { length (selected_oids selection.now) ≤ vec_capacity relations_sent.old }
    ensures relation { take result room.new
        ≡ spell_logical (logical.Relation (relation selection.now oid)) }
    ensures short { result ≤ MAX_MESSAGE_LENGTH }
    ensures same { length room.new ≡ length room.old }
    ensures noted { reverse relations_sent.new.items ≡ oid ∷ reverse relations_sent.old.items }
    ensures sent { AreSelected selection.now (reverse relations_sent.new.items) }
    ensures capacity { vec_capacity relations_sent.new ≡ vec_capacity relations_sent.old }
{
    relations_sent.push_reserved(oid);
    match selection.put_relation(oid, room) {
        Some(length) => length,
        None => unreachable!(),
    }
}

/// The first of these tables whose Relation wasn't sent yet.
fn first_due(relations_sent: &[u32], mut oids: Cursor<'_>) -> Option<u32>
    ensures none { result ≡ None →
        relations_due (reverse relations_sent.now) (oids_in oids.entry) ≡ [] }
    ensures due { IfSome result
        (λ oid. (rest : List ℕ)
        × (relations_due (reverse relations_sent.now) (oids_in oids.entry) ≡ oid ∷ rest)) }
    ensures unsent { IfSome result
        (λ oid. is_relation_sent (reverse relations_sent.now) oid ≡ false) }
    ensures among { IfSome result (λ oid. list_any (λ n. n == oid) (oids_in oids.entry) ≡ true) }
{
    while let Some(oid) = oids.u32() {
        if !relations_sent.contains(&oid) {
            return Some(oid);
        }
    }
    None
}

/// Writes the head of the frame of a message of this size at a position.
pub(crate) fn put_head(head: &mut [u8], position: u64, clock: i64, size: usize)
    requires room { length head.old ≡ HEAD_LENGTH }
    requires short { size ≤ MAX_MESSAGE_LENGTH }
    ensures { head.new ≡ frame_head position clock size }
{
    let kind = write_byte(head, 0, COPY_DATA);
    let counted = write_int32(head, kind, 29 + size as u32);
    let message = write_byte(head, counted, XLOGDATA);
    let start = write_int64(head, message, position);
    let end = write_int64(head, start, position);
    write_int64(head, end, clock.cast_unsigned());
}
