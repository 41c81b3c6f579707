//! A table of slots, which threads share without a lock.

ghost use Rattle.std.specs.Prelude.{◌≡◌, ℕ, ◌<◌, ◌≢◌, ◌==◌, cond, MatchOption, MatchResult, max};
ghost use Rattle.slots.specs.Rule.{slot_step, with_step};
ghost use Rattle.slots.specs.Seats.{Created, Did, DidAt, Holds, IsRefusal, Made, NoneLeft};
ghost use Rattle.slots.specs.Standings.{held_by};
ghost use Rattle.slots.specs.declared.fault.SlotFault.TheVariants.{NoPlace};
ghost use Rattle.slots.specs.declared.table.TheConstants.{END_OF_PLACES, PLACES};
ghost use Rattle.slots.specs.declared.words_kept.step.SlotKind.TheVariants.{Claim, Create, Raise, Read, Release, Retire};

use crate::fault::SlotFault;
use crate::lease::Lease;
use crate::rule::{Claims, Creates, Raises, Reads, Releases, Retires, SlotName, SlotTableLaw};
use crate::seat::SlotSeat;
use crate::words_kept::standing::Standing;
use crate::words_kept::step::SeatView;
use crate::words_kept::words::{position_word, state_at, state_word, word_at, word_past};
use atomic_table::Table;
use std::alloc::Global;
use std::marker::PhantomData;

/// How many places `SlotTable::create` tries.
pub const PLACES: usize = 16;

/// How many slots a table can have at once.
pub const LINES: usize = 1024;

/// Past all places: any number of slots one after the other.
pub const END_OF_PLACES: usize = 2_305_843_009_213_693_952;

/// How many seats a table can have.
pub const MOST_SEATS: usize = 2048;

/// The places of slots. Each call is made by a thread's own seat, takes no memory and waits for nobody.
///
/// A place is one slot's for good: once its slot is dropped, nothing is done there any more. The next slot on its line stands at
/// another place, `LINES` further.
#[derive(Drop)]
pub struct SlotTable<L: SlotName> {
    pub(crate) table: Table<(), SeatView, (), SlotTableLaw, Global>,
    pub(crate) of: PhantomData<L>,
    ghost named: { table.shared.table_id ≡ L.table },
    ghost wide: { table.shared.table_id.words ≡ 8192 },
}

impl<L: SlotName> SlotTable<L> {
    /// Takes the place if it was never made, and its line has come to it. How the place stood before.
    fn try_new(&self, seat: &mut SlotSeat<L>, place: usize) -> u64
        requires { place < END_OF_PLACES }
        ensures { Did Create place result
            (cond (result == 0) (held_by seat.old.number) result) seat.old seat.new }
    {
        let never = Standing::Never.word();
        let mine = Standing::Held(seat.number).word();
        let old = word_at(place, never);
        let new = word_at(place, mine);
        let word = state_word(place);
        let shared = &self.table.shared;
        let found = shared.compare_exchange::<Creates>(&mut seat.seat, word, old, new);
        state_at(place, found)
    }

    /// Takes the place if it was never made, and its line has come to it.
    #[tactic(auto, using(crate::proofs::Holding::created_holds))]
    fn take_new(&self, seat: &mut SlotSeat<L>, place: usize) -> Option<Lease<L>>
        requires { place < END_OF_PLACES }
        ensures { MatchOption result
            ((found : ℕ) × (found ≢ 0) × Did Create place found found seat.old seat.new)
            (λ lease. (lease.place ≡ place) × Holds place seat.new
            × Did Create place 0 (held_by seat.old.number) seat.old seat.new) }
    {
        let found = self.try_new(seat, place);
        match Standing::of_word(found) {
            Standing::Never => Some(Lease {
                place,
                of: PhantomData,
            }),
            _ => None,
        }
    }

    /// Makes a slot at the first place that was never made, and confirms this position. It is free then. `NoPlace` (L4) where
    /// there is no such place.
    pub fn create(&self, seat: &mut SlotSeat<L>, position: u64) -> Result<usize, SlotFault>
        ensures { MatchResult result
            (λ place. (place < PLACES) × Created seat.old position place seat.new)
            (λ e. (e ≡ NoPlace) × NoneLeft seat.old seat.new) }
    {
        for place in 0..PLACES {
            if let Some(mut lease) = self.take_new(seat, place) {
                self.confirm(seat, &mut lease, position);
                self.release(seat, lease);
                return Ok(place);
            }
        }
        Err(SlotFault::NoPlace)
    }

    /// Makes a slot at this place, and confirms this position, or the one of its line if that is further. It is free then.
    /// `NoPlace` (L4) where the place was made already, or its line hasn't come to it.
    pub fn make(&self, seat: &mut SlotSeat<L>, place: usize, position: u64) -> Result<(), SlotFault>
        requires { place < END_OF_PLACES }
        ensures { MatchResult result (λ _. Made seat.old position place seat.new)
            (λ e. (e ≡ NoPlace) × ((found : ℕ) × (found ≢ 0)
            × Did Create place found found seat.old seat.new)) }
    {
        match self.take_new(seat, place) {
            Some(mut lease) => {
                let _confirmed = self.confirm(seat, &mut lease, position);
                self.release(seat, lease);
                Ok(())
            }
            None => Err(SlotFault::NoPlace),
        }
    }

    /// Takes the place if it is free. How the place stood before.
    fn try_claim(&self, seat: &mut SlotSeat<L>, place: usize) -> u64
        requires { place < END_OF_PLACES }
        ensures { Did Claim place result
            (cond (result == 1) (held_by seat.old.number) result) seat.old seat.new }
    {
        let free = Standing::Free.word();
        let mine = Standing::Held(seat.number).word();
        let old = word_at(place, free);
        let new = word_at(place, mine);
        let word = state_word(place);
        let shared = &self.table.shared;
        let found = shared.compare_exchange::<Claims>(&mut seat.seat, word, old, new);
        state_at(place, found)
    }

    /// One compare and exchange, which takes a free place. A held one is `InUse` (L2), as is one to which its line hasn't come.
    /// One that was never made or was dropped is `Missing` (L1).
    #[tactic(auto, using(crate::proofs::Holding::claimed_holds))]
    pub fn claim(&self, seat: &mut SlotSeat<L>, place: usize) -> Result<Lease<L>, SlotFault>
        requires { place < END_OF_PLACES }
        ensures { MatchResult result
            (λ lease. (lease.place ≡ place) × Holds place seat.new
            × Did Claim place 1 (held_by seat.old.number) seat.old seat.new)
            (λ e. (found : ℕ) × IsRefusal e found × Did Claim place found found seat.old seat.new) }
    {
        let found = self.try_claim(seat, place);
        let standing = Standing::of_word(found);
        match standing {
            Standing::Free => Ok(Lease {
                place,
                of: PhantomData,
            }),
            Standing::Never | Standing::Dropped => Err(SlotFault::Missing),
            Standing::Held(_) => Err(SlotFault::InUse),
        }
    }

    /// Raises the confirmed position, and answers it: the greater of the old and the new.
    pub fn confirm(&self, seat: &mut SlotSeat<L>, lease: &mut Lease<L>, position: u64) -> u64
        requires { Holds lease.old.place seat.old }
        ensures raised { (found : ℕ) × (result ≡ max found position)
            × DidAt Raise lease.old.place found result seat.old seat.new }
        ensures lease { (lease.new ≡ lease.old) × Holds lease.new.place seat.new }
    {
        let word = position_word(lease.place);
        let shared = &self.table.shared;
        let found = shared.fetch_max::<Raises>(&mut seat.seat, word, position);
        found.max(position)
    }

    /// The confirmed position.
    pub fn confirmed(&self, seat: &mut SlotSeat<L>, lease: &Lease<L>) -> u64
        requires { Holds lease.now.place seat.old }
        ensures read { DidAt Read lease.now.place result result seat.old seat.new }
        ensures lease { Holds lease.now.place seat.new }
    {
        let word = position_word(lease.place);
        let shared = &self.table.shared;
        shared.load::<Reads>(&mut seat.seat, word)
    }

    /// Makes the place free.
    pub fn release(&self, seat: &mut SlotSeat<L>, lease: Lease<L>)
        requires { Holds lease.place seat.old }
        ensures { seat.new
            ≡ with_step seat.old (slot_step Release lease.place (held_by seat.old.number) 1) }
    {
        let Lease { place, of: _ } = lease;
        let free = Standing::Free.word();
        let new = word_at(place, free);
        let word = state_word(place);
        let shared = &self.table.shared;
        shared.store::<Releases>(&mut seat.seat, word, new)
    }

    /// One compare and exchange, which drops a free place. A held one is `InUse` (L2), as is one to which its line hasn't come.
    /// One that was never made or was dropped is `Missing` (L1).
    pub fn drop_slot(&self, seat: &mut SlotSeat<L>, place: usize) -> Result<(), SlotFault>
        requires { place < END_OF_PLACES }
        ensures { MatchResult result (λ _. Did Retire place 1 2 seat.old seat.new)
            (λ e. (found : ℕ) × IsRefusal e found
            × Did Retire place found found seat.old seat.new) }
    {
        let free = Standing::Free.word();
        let old = word_at(place, free);
        let new = word_past(place);
        let word = state_word(place);
        let shared = &self.table.shared;
        let found = shared.compare_exchange::<Retires>(&mut seat.seat, word, old, new);
        match Standing::of_word(state_at(place, found)) {
            Standing::Free => Ok(()),
            Standing::Never | Standing::Dropped => Err(SlotFault::Missing),
            Standing::Held(_) => Err(SlotFault::InUse),
        }
    }
}
