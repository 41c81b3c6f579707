//! The answer of START_REPLICATION.

ghost use Rattle.std.specs.Prelude.{◌≡◌};
ghost use Rattle.pqformat.specs.Putting.{Puts};
ghost use Rattle.server.specs.Said.{answer_to_start};

use crate::asked::naming::say_start_refused;
use crate::backend_fault::BackendFault;
use crate::said::say::say;
use bytes::BytesMut;
use frames::{Back, CopyBothResponse};
use pqformat::{Items, Text};
use std::alloc::{AllocError, Global};

/// That a stream of these publications begins from the slot, or why none does (PostgreSQL 15, 55.4). `AllocError` where memory
/// is refused; some of it may have been added then.
#[tactic(auto, using(pqformat::proofs::Putting::in_place), unfolding(crate::specs::Said::answer_to_start, pqformat::specs::Fields::int32, pqformat::specs::Fields::int16))]
pub fn say_started(
    alloc: Global,
    out: &mut BytesMut,
    slot: &str,
    publications: &[Text],
    answer: Result<(), BackendFault>,
) -> Result<(), AllocError>
    ensures { Puts result out.old.items out.new.items (answer_to_start slot.now publications.now answer) }
{
    match answer {
        Ok(()) => {
            let formats = Items::new(Vec::new(alloc));
            say(
                out,
                Back::CopyBothResponse(CopyBothResponse { format: 0, formats }),
            )
        }
        Err(fault) => say_start_refused(alloc, out, fault, slot, publications),
    }
}
