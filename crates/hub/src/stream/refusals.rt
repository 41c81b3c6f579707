//! Why a stream doesn't begin, as a backend tells it.

ghost use Rattle.std.specs.Prelude.{◌≡◌};
ghost use Rattle.hub.specs.Refusals.{of_start};

use server::BackendFault;
use server_state::{of_publications, of_slot};
use walsender::{ClaimFault, StartFault};

/// Why a stream doesn't begin.
pub(crate) fn of_start(fault: StartFault) -> BackendFault
    ensures { result ≡ of_start fault }
{
    match fault {
        StartFault::NoSlot => BackendFault::SlotMissing,
        StartFault::Publication(fault) => of_publications(fault),
        StartFault::NoReader => BackendFault::NoReader,
        StartFault::Claim(ClaimFault::Slot(fault)) => of_slot(fault),
        StartFault::Claim(ClaimFault::NoEntry) => BackendFault::NoReader,
        StartFault::Claim(ClaimFault::Removed) => BackendFault::SlotLost,
        StartFault::Claim(ClaimFault::Memory) => BackendFault::Memory,
    }
}
