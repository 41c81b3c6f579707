//! A table of slots before it is named.

ghost use Rattle.std.specs.Prelude.{◌≡◌, ◌<◌, ◌≤◌, ◌++◌, ◌∷◌, All, IfOk, List, [], vec_len};
ghost use Rattle.slots.specs.Rule.{first_view};
ghost use Rattle.slots.specs.Seats.{IsFresh, first_of};
ghost use Rattle.slots.specs.declared.words_kept.step.SeatView.{SeatView};
ghost use Rattle.slots.specs.declared.table.TheConstants.{MOST_SEATS};

use crate::rule::{Seats, SlotName, SlotTableLaw};
use crate::seat::SlotSeat;
use crate::table::SlotTable;
use crate::words_kept::step::SeatView;
use crate::words_kept::words::WORDS;
use atomic_table::{Seat, Table};
use std::alloc::{AllocError, Global};
use std::marker::PhantomData;

/// A table with no slots, and its first seat. `open` names it.
#[derive(Drop)]
pub struct OpenedSlots {
    alloc: Global,
    table: Table<(), SeatView, (), SlotTableLaw, Global>,
    pub first: Seat<(), SeatView>,
    ghost same: { first.table_id ≡ table.shared.table_id },
    ghost wide: { table.shared.table_id.words ≡ 8192 },
    ghost fresh: { first.me ≡ (first_view, []) },
}

impl OpenedSlots {
    /// A table with no slots; `AllocError` where memory for it is refused.
    pub fn new(alloc: Global) -> Result<Self, AllocError> {
        let (table, first) = Table::of_words(alloc, &[0; WORDS], &())?;
        Ok(OpenedSlots {
            alloc,
            table,
            first,
        })
    }

    /// The table, and as many seats. The last of them has number 0. `AllocError` where memory for the seats is refused.
    pub fn open<L: SlotName>(
        self,
        seats: usize,
    ) -> Result<(SlotTable<L>, Vec<SlotSeat<L>>), AllocError>
        requires name { self.first.table_id ≡ L.table }
        requires seats { 0 < seats }
        requires few { seats ≤ MOST_SEATS }
        ensures { IfOk result
            (λ made. (vec_len made.1 ≡ seats) × All (IsFresh seats) made.1.items
            × ((others : List SeatView) × (made.1.items ≡ others ++ first_of seats ∷ []))) }
    {
        let OpenedSlots {
            alloc,
            table,
            mut first,
        } = self;
        let mut others = Vec::new(alloc);
        for _ in 1..seats {
            let number = others.len() as u64 + 1;
            let seat = table.shared.split_seat::<Seats>(&mut first);
            others.push(SlotSeat {
                number,
                seat,
                of: PhantomData,
            })?;
        }
        others.push(SlotSeat {
            number: 0,
            seat: first,
            of: PhantomData,
        })?;
        Ok((
            SlotTable {
                table,
                of: PhantomData,
            },
            others,
        ))
    }
}
