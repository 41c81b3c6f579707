//! A slot that is held.

ghost use Rattle.std.specs.Prelude.{◌≡◌, ℕ, ◌<◌, MatchResult, max};
ghost use Rattle.slots.specs.Rule.{slot_step, with_step};
ghost use Rattle.slots.specs.Seats.{Did, DidAt, Holds, IsRefusal};
ghost use Rattle.slots.specs.Standings.{held_by};
ghost use Rattle.slots.specs.declared.table.TheConstants.{END_OF_PLACES};
ghost use Rattle.slots.specs.declared.words_kept.step.SlotKind.TheVariants.{Claim, Raise, Read, Release};

use slots::{Lease, SlotFault, SlotName, SlotSeat, SlotTable};

/// The lease of a slot, with the seat that claimed it, so that each of its calls goes through that seat. `release` ends it.
pub struct Hold<L: SlotName> {
    seat: SlotSeat<L>,
    lease: Lease<L>,
    ghost held: { Holds lease.place seat },
}

impl<L: SlotName> Hold<L> {
    /// Claims the slot at this place. `Missing` (L1) where there is none, `InUse` (L2) where it is held; with them the seat comes
    /// back.
    pub fn claim(
        slots: &SlotTable<L>,
        mut seat: SlotSeat<L>,
        place: usize,
    ) -> Result<Self, (SlotSeat<L>, SlotFault)>
        requires { place < END_OF_PLACES }
        ensures { MatchResult result
            (λ hold. (hold.lease.place ≡ place)
            × Did Claim place 1 (held_by seat.number) seat hold.seat)
            (λ back. (found : ℕ) × IsRefusal back.1 found
            × Did Claim place found found seat back.0) }
    {
        match slots.claim(&mut seat, place) {
            Ok(lease) => Ok(Hold { seat, lease }),
            Err(fault) => Err((seat, fault)),
        }
    }

    /// The slot's place.
    pub fn place(&self) -> usize
        ensures { result ≡ self.now.lease.place }
    {
        self.lease.place
    }

    /// Raises the slot's confirmed position, and answers it: the greater of the old and the new.
    pub fn confirm(&mut self, slots: &SlotTable<L>, position: u64) -> u64
        ensures raised { (found : ℕ) × (result ≡ max found position)
            × DidAt Raise self.old.lease.place found result self.old.seat self.new.seat }
        ensures same { self.new.lease ≡ self.old.lease }
    {
        slots.confirm(&mut self.seat, &mut self.lease, position)
    }

    /// The slot's confirmed position.
    pub fn confirmed(&mut self, slots: &SlotTable<L>) -> u64
        ensures read { DidAt Read self.old.lease.place result result self.old.seat self.new.seat }
        ensures same { self.new.lease ≡ self.old.lease }
    {
        slots.confirmed(&mut self.seat, &self.lease)
    }

    /// Makes the slot free, and gives the seat back.
    pub fn release(self, slots: &SlotTable<L>) -> SlotSeat<L>
        ensures { result
            ≡ with_step self.seat
            (slot_step Release self.lease.place (held_by self.seat.number) 1) }
    {
        let Hold { mut seat, lease } = self;
        slots.release(&mut seat, lease);
        seat
    }
}
