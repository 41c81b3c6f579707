//! What is given back of the log, by the position that slots are confirmed at.

ghost use Rattle.std.specs.Prelude.{◌≡◌, IfSome, take};
ghost use mathlib.Core.List.{IsPrefix};
ghost use Rattle.shared_log.specs.SeenPrefixes.{settled_records};
ghost use Rattle.shared_log.specs.Readers.{seen_of};
ghost use Rattle.txlog.specs.Giving.{GivesBack, kept_place};
ghost use Rattle.txlog.specs.Invariants.{IsPublisher};

use crate::publisher::Publisher;
use shared_log::{LogName, LogReader};

impl<L: LogName> Publisher<L> {
    /// Gives back what stands before where the log is kept for slots that are confirmed at this position or later, but for what
    /// transactions in progress have written; or nothing, where the reader finds no place. The reader is left anywhere.
    #[tactic(auto, using(crate::proofs::Sparing::gives_none))]
    pub fn give_back_before(&mut self, reader: &mut LogReader<L>, confirmed: u64)
        ensures gives { GivesBack confirmed self.old self.new }
        ensures publisher { IsPublisher self.new }
    {
        let count = self.tell(reader);
        if let Some(place) = kept_place(reader, confirmed, count) {
            self.give_back(place);
        }
    }
}

/// From where the first `count` records of a log are kept for a slot that is confirmed at this position. None where the log
/// doesn't let the reader in, and where what the slot needs was given back.
pub fn kept_place<L: LogName>(
    reader: &mut LogReader<L>,
    confirmed: u64,
    count: usize,
) -> Option<usize>
    ensures place { IfSome result
        (λ place. place ≡ kept_place confirmed (take count (seen_of reader.new))) }
    ensures sees { IfSome result
        (λ _. IsPrefix (settled_records reader.new.told) (seen_of reader.new)) }
    ensures told { reader.new.told ≡ reader.old.told }
{
    match reader.resume(confirmed, count) {
        Ok(_) => Some(reader.place().saturating_sub(1)),
        Err(_) => None,
    }
}
