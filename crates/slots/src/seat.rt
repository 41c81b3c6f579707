//! A seat at a table of slots.

use crate::rule::SlotName;
use crate::words_kept::step::SeatView;
use atomic_table::Seat;
use std::marker::{Model, PhantomData};

/// What a thread takes its steps with. Contracts see its view: its own steps, which stand in proofs alone.
#[derive(Drop)]
pub struct SlotSeat<L: SlotName> {
    pub(crate) number: u64,
    pub(crate) seat: Seat<(), SeatView>,
    pub(crate) of: PhantomData<L>,
}

impl<L: SlotName> Model for SlotSeat<L> {
    ghost use Rattle.std.specs.Prelude.{◌≡◌, ◌<◌, []};
    ghost use Rattle.slots.specs.declared.words_kept.step.SeatView.{SeatView};

    ghost Value = { SeatView };

    ghost view = { λ s. s.seat.me.0 };

    ghost invariant = { λ s. (s.seat.table_id ≡ L.table)
        × (s.seat.me.0.number ≡ s.number)
        × (s.seat.me.1 ≡ [])
        × (s.number < 2048) };
}
