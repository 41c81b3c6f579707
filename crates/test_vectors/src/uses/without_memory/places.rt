//! Slots and their names: a slot created, claimed, confirmed, released and dropped.

ghost use Rattle.std.specs.Prelude.{◌≡◌};

use crate::uses::without_memory::answered;
use anyhow::{Result, bail};
use slots::{Directory, OpenedSlots, SlotFault, SlotName, SlotSeat, SlotTable};
use std::alloc::Global;
use std::marker::Brand;

const NAME: &str = "s";

pub fn work(alloc: Global, is_called: bool) -> Result<()> {
    let opened = OpenedSlots::new(alloc)?;
    over_table::<Brand>(alloc, opened, is_called)
}

/// The table is named by the call.
fn over_table<L: SlotName>(alloc: Global, opened: OpenedSlots, is_called: bool) -> Result<()>
    requires { opened.first.table_id ≡ L.table }
{
    let (table, mut seats) = opened.open::<L>(1)?;
    let [seat] = seats.as_mut_slice() else {
        bail!("a table has a seat");
    };
    with_seat(alloc, &table, seat, is_called)
}

fn with_seat<L: SlotName>(
    alloc: Global,
    table: &SlotTable<L>,
    seat: &mut SlotSeat<L>,
    is_called: bool,
) -> Result<()> {
    let mut names = Directory::new(alloc);
    names.add(NAME, 0)?;
    let is_right = !is_called || is_used(table, seat)? && is_named(&mut names);
    answered(is_right, "a slot's calls answer otherwise")
}

fn is_used<L: SlotName>(table: &SlotTable<L>, seat: &mut SlotSeat<L>) -> Result<bool, SlotFault> {
    let place = table.create(seat, 9)?;
    let mut lease = table.claim(seat, place)?;
    let raised = table.confirm(seat, &mut lease, 12);
    let read = table.confirmed(seat, &lease);
    table.release(seat, lease);
    table.drop_slot(seat, place)?;
    Ok(raised == 12 && read == 12)
}

fn is_named(names: &mut Directory) -> bool {
    names.find(NAME) == Some(0) && names.remove(NAME) == Some(0) && names.find(NAME).is_none()
}
