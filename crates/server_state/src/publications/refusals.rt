//! Why slots and publications refuse, as a backend tells it.

ghost use Rattle.std.specs.Prelude.{◌≡◌};
ghost use Rattle.server_state.specs.Refusals.{of_publications, of_slot};

use publication::PubFault;
use server::BackendFault;
use slots::SlotFault;

/// Why a slot was refused: `SlotMissing` (L1), `SlotInUse` (L2), `SlotExists` (L3), `NoSlotPlace` (L4), or `Memory`, as it was.
pub fn of_slot(fault: SlotFault) -> BackendFault
    ensures { result ≡ of_slot fault }
{
    match fault {
        SlotFault::Missing => BackendFault::SlotMissing,
        SlotFault::InUse => BackendFault::SlotInUse,
        SlotFault::Exists => BackendFault::SlotExists,
        SlotFault::NoPlace => BackendFault::NoSlotPlace,
        SlotFault::Memory => BackendFault::Memory,
    }
}

/// Why publications were not selected: `UnknownPublication` (P1), `ListConflict` (P2), or else `Memory`.
pub fn of_publications(fault: PubFault) -> BackendFault
    ensures { result ≡ of_publications fault }
{
    match fault {
        PubFault::Unknown => BackendFault::UnknownPublication,
        PubFault::ListConflict => BackendFault::ListConflict,
        _ => BackendFault::Memory,
    }
}
