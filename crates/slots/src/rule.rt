//! The rule of slots, and what each kind of step tells.

ghost use Rattle.slots.specs.Rule.{Kept, Slots};
ghost use Rattle.slots.specs.Seats.{HasOneHolder};

use crate::words_kept::step::SeatView;
use atomic_table::{Play, Split, TableRule};
use std::marker::Brand;

/// Which table it is. Each call of a program picks it.
pub trait SlotName {
    ghost use Rattle.atomic_table.specs.Seated.{TableId};

    ghost table: { TableId };
}

impl SlotName for Brand {
    ghost use Rattle.std.specs.Prelude.{[]};

    ghost table = { record {
      words = 0;
      slots = 0;
      views_name = 0;
      atom = 0;
      block = 0;
      offset = 0;
      slot_names = [];
    } };
}

/// The rule between any two steps (`Kept`).
pub struct SlotTableLaw;

impl TableRule<(), SeatView, ()> for SlotTableLaw {
    ghost use Rattle.slots.specs.Rule.{first_view};

    ghost holds = { λ _ s. Kept s };

    ghost first = { λ _. first_view };
}

/// Under the rule no slot has two holders.
pub fn no_slot_has_two_holders()
    ensures { (s : Slots) → Kept s → HasOneHolder s }
{}

pub struct Creates;

impl Play<(), SeatView> for Creates {
    ghost use Rattle.slots.specs.Rule.{creates};

    ghost then = { creates };
}

pub struct Claims;

impl Play<(), SeatView> for Claims {
    ghost use Rattle.slots.specs.Rule.{claims};

    ghost then = { claims };
}

pub struct Reads;

impl Play<(), SeatView> for Reads {
    ghost use Rattle.slots.specs.Rule.{reads};

    ghost then = { reads };
}

pub struct Raises;

impl Play<(), SeatView> for Raises {
    ghost use Rattle.slots.specs.Rule.{raises};

    ghost then = { raises };
}

pub struct Releases;

impl Play<(), SeatView> for Releases {
    ghost use Rattle.slots.specs.Rule.{releases};

    ghost then = { releases };
}

pub struct Retires;

impl Play<(), SeatView> for Retires {
    ghost use Rattle.slots.specs.Rule.{retires};

    ghost then = { retires };
}

/// A seat more, which the first seat counts.
pub struct Seats;

impl Split<SeatView> for Seats {
    ghost use Rattle.slots.specs.Rule.{newest, one_more};

    ghost left = { one_more };

    ghost right = { newest };
}
