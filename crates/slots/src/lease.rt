//! The hold on a slot.

ghost use Rattle.std.specs.Prelude.{◌<◌};
ghost use Rattle.slots.specs.declared.table.TheConstants.{END_OF_PLACES};

use crate::rule::SlotName;
use std::marker::PhantomData;

/// A place that a seat holds. It must be spent, by the seat that claimed it.
pub struct Lease<L: SlotName> {
    pub place: usize,
    pub(crate) of: PhantomData<L>,
    ghost inside: { place < END_OF_PLACES },
}
