//! Replication slots: a table of slots that threads share without a lock, the names of slots, and slots by name for a machine
//! that makes all their steps by one seat.
//!
//! A slot stands at a place, whose line in an atomic table says whether it is free or held, and how far it is confirmed. As it is
//! dropped the line goes on to the next place: one slot's words never mean another. `SlotTable` has
//! the steps that threads take (`table.rt`), each for a `SlotSeat`; `Directory` has the names; `NamedSlots` and `HeldSlots` put
//! the two together for one thread.
//!
//! Read `words_kept/slot_word.rt`, `words_kept/step.rt`, `table.rt`, `by_name/directory.rt`. Above, one law is used: between any two steps a slot has at most
//! one holder, and its position never goes back (`no_slot_has_two_holders`).
#![tactic(auto)]

mod by_name;
mod fault;
mod lease;
mod opened;
mod rule;
mod seat;
mod table;
mod words_kept;

pub use by_name::directory::Directory;
pub use by_name::held::HeldSlots;
pub use by_name::named::NamedSlots;
pub use by_name::slot::Slot;
pub use fault::SlotFault;
pub use lease::Lease;
pub use opened::OpenedSlots;
pub use rule::{SlotName, no_slot_has_two_holders};
pub use seat::SlotSeat;
pub use table::{END_OF_PLACES, LINES, MOST_SEATS, PLACES, SlotTable};
pub use words_kept::slot_word::{
    confirm, is_held, is_missing, let_go, slot_named, start_from, take,
};
pub use words_kept::standing::Standing;
pub use words_kept::step::{SeatView, SlotKind, SlotStep};
