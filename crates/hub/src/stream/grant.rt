//! What a START was granted, before its stream.

ghost use Rattle.std.specs.Prelude.{◌≡◌, ℕ, ◌<◌, ◌≤◌, IfOk, OnOk, None, false, length, max, replicate, take};
ghost use Rattle.shared_log.specs.Readers.{seen_of};
ghost use Rattle.wal.specs.Log.{IsWellFormedLog};
ghost use Rattle.wal.specs.Restart.{restart, restart_place};
ghost use Rattle.hub.specs.declared.stream.grant.TheConstants.{LIMIT};
ghost use Rattle.hub.specs.Refusals.{of_read};
ghost use Rattle.hub.specs.Streams.{HasChunksSet, asked_for};
ghost use Rattle.slots.specs.Rule.{slot_step, with_step};
ghost use Rattle.slots.specs.Standings.{held_by};
ghost use Rattle.slots.specs.declared.words_kept.step.SlotKind.TheVariants.{Claim, Read};
ghost use Rattle.slots.specs.declared.table.TheConstants.{END_OF_PLACES};

use crate::stream::demand::ChunksNeeded;
use chgarena::Arena;
use connections::Hold;
use pqformat::Text;
use publication::{PubFault, Publications, Selection};
use replcmd::StreamOptions;
use server_state::ReaderSeat;
use shared_log::{LogName, LogReader, ReadFault};
use slots::{SlotName, SlotTable};
use std::alloc::Global;
use walsender::ClaimFault;

/// How many records of the log count for where a stream begins: all that its reader sees.
const LIMIT: usize = usize::MAX;

/// What a stream is made of beside its slot and its reader: what these names select, told as the options ask, and an arena of so
/// many chunks. Where a stream of the slot found them full, the arena has as many as the log takes, if without what is rolled back
/// so many would do: so what was rolled back ends no stream for good.
#[derive(Drop)]
pub(crate) struct StreamParams<'a> {
    pub alloc: Global,
    pub publications: &'a Publications,
    pub names: &'a [Text],
    pub options: &'a StreamOptions,
    pub chunks: u32,
    pub was_full: bool,
}

impl<'a> StreamParams<'a> {
    /// How many chunks the arena has, of a stream that starts there. The reader is left anywhere.
    fn chunks_from<L: LogName>(&self, reader: &mut LogReader<L>, start: u64) -> u32
        ensures least { self.now.chunks ≤ result }
        ensures set { self.now.was_full ≡ false → result ≡ self.now.chunks }
    {
        if !self.was_full {
            return self.chunks;
        }
        match ChunksNeeded::of(self.alloc, reader, start) {
            Some(needed) if needed.kept <= self.chunks => needed.all.saturating_add(self.chunks),
            _ => self.chunks,
        }
    }

    /// With an arena of so many chunks. Only memory refuses it, once the publications are judged.
    fn make(&self, chunks: u32) -> Result<(Selection, Arena), PubFault>
        ensures { IfOk result
            (λ made. (made.0
            ≡ asked_for self.now.publications.now self.now.names.now self.now.options.now)
            × (made.1 ≡ replicate chunks None)) }
    {
        let selection = self.publications.select(self.names)?;
        match Arena::new(self.alloc, chunks as usize) {
            Ok(arena) => Ok((selection.with_messages(self.options.messages), arena)),
            Err(_) => {
                drop(selection);
                Err(PubFault::Memory)
            }
        }
    }

    /// Begins at the position, or at a later one that the slot has confirmed. The reader goes to where it begins to read for that, in
    /// all of the log that it sees.
    fn begin<L: LogName + SlotName>(
        &self,
        slots: &SlotTable<L>,
        hold: &mut Hold<L>,
        reader: &mut LogReader<L>,
        position: u64,
    ) -> Result<StreamStart, ClaimFault>
        ensures start { IfOk result
            (λ b. (confirmed : ℕ)
            × (hold.new.seat
            ≡ with_step hold.old.seat
            (slot_step Read hold.old.lease.place confirmed confirmed))
            × (b.start ≡ max position confirmed)) }
        ensures lease { hold.new.lease ≡ hold.old.lease }
        ensures selection { IfOk result
            (λ b. b.selection
            ≡ asked_for self.now.publications.now self.now.names.now self.now.options.now) }
        ensures arena { IfOk result
            (λ b. HasChunksSet self.now.chunks self.now.was_full b.arena) }
        ensures place { IfOk result
            (λ b. reader.new.place ≡ restart_place b.start (take LIMIT (seen_of reader.new))) }
        ensures first { IfOk result
            (λ b. b.first ≡ restart b.start (take LIMIT (seen_of reader.new))) }
        ensures good { OnOk result (IsWellFormedLog (seen_of reader.new)) }
    {
        let start = position.max(hold.confirmed(slots));
        let chunks = self.chunks_from(reader, start);
        let Ok((selection, arena)) = self.make(chunks) else {
            return Err(ClaimFault::Memory);
        };
        match reader.resume(start, LIMIT) {
            Ok(first) => Ok(StreamStart {
                selection,
                start,
                first,
                arena,
            }),
            Err(fault) => {
                drop(selection);
                drop(arena);
                Err(claim_fault_of(fault))
            }
        }
    }
}

/// Why a stream doesn't begin whose reader finds no place.
fn claim_fault_of(fault: ReadFault) -> ClaimFault
    ensures { result ≡ of_read fault }
{
    match fault {
        ReadFault::Removed => ClaimFault::Removed,
        ReadFault::NoEntry | ReadFault::Stale | ReadFault::Memory => ClaimFault::NoEntry,
    }
}

/// What a stream begins with, beside its slot and its reader: the fields of its grant.
#[derive(Drop)]
struct StreamStart {
    selection: Selection,
    start: u64,
    first: u64,
    arena: Arena,
}

/// What a START was granted: `Stream::open` makes the stream of it. It isn't `Drop`.
pub(crate) struct StreamGrant<L: LogName + SlotName> {
    pub selection: Selection,
    pub start: u64,
    /// Where its reader begins.
    pub first: u64,
    pub reader: LogReader<L>,
    pub hold: Hold<L>,
    /// Which latch wakes its stream.
    pub latch: usize,
    /// Where its sender keeps the changes of transactions in progress.
    pub arena: Arena,
    ghost place: { reader.place ≡ restart_place start (take LIMIT (seen_of reader)) },
    ghost begins: { first ≡ restart start (take LIMIT (seen_of reader)) },
    ghost good: { ∥ IsWellFormedLog (seen_of reader) ∥₁ },
    ghost empty: { arena ≡ replicate (length arena) None },
}

impl<L: LogName + SlotName> StreamGrant<L> {
    /// Claims the slot at this place for what these names select, and begins at the position, or at a later one that the slot
    /// has confirmed. Its reader goes to where it begins to read for that, in all of the log that it sees. What is refused gives
    /// the seat back, and the slot is as free as it was: `Slot` where it was dropped meanwhile (L1) or is held (L2), `NoEntry`
    /// where the log lets no reader in, `Removed` where its records were given back, or `Memory`.
    pub fn claim(
        slots: &SlotTable<L>,
        reader_seat: ReaderSeat<L>,
        place: usize,
        params: &StreamParams<'_>,
        position: u64,
    ) -> Result<Self, (ReaderSeat<L>, ClaimFault)>
        requires { place < END_OF_PLACES }
        ensures hold { IfOk result
            (λ b. (confirmed : ℕ)
            × (b.hold.seat
            ≡ with_step
            (with_step reader_seat.seat (slot_step Claim place 1 (held_by reader_seat.seat.number)))
            (slot_step Read place confirmed confirmed))
            × (b.start ≡ max position confirmed)) }
        ensures place { IfOk result (λ b. b.hold.lease.place ≡ place) }
        ensures selection { IfOk result
            (λ b. b.selection
            ≡ asked_for params.now.publications.now params.now.names.now params.now.options.now) }
        ensures arena { IfOk result
            (λ b. HasChunksSet params.now.chunks params.now.was_full b.arena) }
    {
        let ReaderSeat {
            mut reader,
            seat,
            latch,
        } = reader_seat;
        let mut hold = match Hold::claim(slots, seat, place) {
            Ok(hold) => hold,
            Err((seat, fault)) => {
                return Err((ReaderSeat::of(reader, seat, latch), ClaimFault::Slot(fault)));
            }
        };
        match params.begin(slots, &mut hold, &mut reader, position) {
            Ok(
                StreamStart {
                    selection,
                    start,
                    first,
                    arena,
                },
            ) => Ok(StreamGrant {
                selection,
                start,
                first,
                reader,
                hold,
                latch,
                arena,
            }),
            Err(fault) => Err((ReaderSeat::of(reader, hold.release(slots), latch), fault)),
        }
    }
}
