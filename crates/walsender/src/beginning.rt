//! How a stream begins: what is asked for it, in which order, and why it is refused.

ghost use Rattle.std.specs.Prelude.{IfOk};
ghost use Rattle.walsender.specs.Beginning.{AreAsked, IsGranted, questions};

use publication_config::PubFault;
use slots::SlotFault;

/// Whoever has the slots, the publications and the readers of which a stream is made, for one START. `told` is what a question with
/// its answer says of it before and after, and `granted` what is granted to the one that asks; who tells nothing says `Unit`.
pub trait StartBackend {
    ghost use Rattle.std.specs.Prelude.{IfOk, is_some};
    ghost use Rattle.walsender.specs.Beginning.{Question, FindsSlot, Judges, TakesReader, Claims, fault_of};

    /// A slot that is there.
    type Slot: Drop;
    /// A reader of the log, with all else that so many streams can have at once.
    type Reader: Drop;
    /// What a stream is made of.
    type Grant;

    ghost told: { Self → Question → Self → Type 0 };

    ghost granted: { Self → Self.Grant → Type 0 };

    /// The slot that the stream is for; None where it isn't there.
    fn find_slot(&mut self) -> Option<Self::Slot>
        ensures { told self.old (FindsSlot (is_some result)) self.new };

    /// Whether its publications can be selected: `Unknown` (P1) where one is unknown, `ListConflict` (P2) where their lists
    /// differ. It takes no memory.
    fn judge(&mut self) -> Result<(), PubFault>
        ensures { told self.old (Judges (fault_of result)) self.new };

    /// A reader that no stream has; None where there is none.
    fn take_reader(&mut self) -> Option<Self::Reader>
        ensures { told self.old (TakesReader (is_some result)) self.new };

    /// Claims the slot, and then makes what needs memory; or answers why not. Where it is refused, the reader is free again,
    /// and so is the slot.
    fn claim(&mut self, slot: Self::Slot, reader: Self::Reader) -> Result<Self::Grant, ClaimFault>
        ensures told { told self.old (Claims (fault_of result)) self.new }
        ensures grant { IfOk result (granted self.old) };
}

/// Why a slot isn't claimed for a stream.
#[derive(Clone, Copy, Debug, PartialEq, Eq)]
pub enum ClaimFault {
    /// L2, or L1 where the slot was dropped meanwhile.
    Slot(SlotFault),
    /// The log lets no reader in.
    NoEntry,
    /// The log's records for it were given back.
    Removed,
    Memory,
}

/// Why a stream doesn't begin.
#[derive(Clone, Copy, Debug, PartialEq, Eq)]
pub enum StartFault {
    /// L1.
    NoSlot,
    /// P1 or P2.
    Publication(PubFault),
    /// L6.
    NoReader,
    Claim(ClaimFault),
}

/// Begins a stream, or answers the first of the refusals in their order: `NoSlot` (L1) where there is no such slot,
/// `Publication` where one is unknown (P1) or lists differ (P2), `NoReader` (L6) where no reader is free, and then `Claim`,
/// where the slot is held (L2), the log doesn't give what is needed, or memory is refused. Nothing is asked after a refusal.
pub fn begin<D: StartBackend>(backend: &mut D) -> Result<D::Grant, StartFault>
    ensures asked { AreAsked D.told backend.old (questions result) backend.new }
    ensures grant { IfOk result (IsGranted D.told D.granted backend.old) }
{
    let Some(slot) = backend.find_slot() else {
        return Err(StartFault::NoSlot);
    };
    if let Err(fault) = backend.judge() {
        return Err(StartFault::Publication(fault));
    }
    let Some(reader) = backend.take_reader() else {
        return Err(StartFault::NoReader);
    };
    match backend.claim(slot, reader) {
        Ok(grant) => Ok(grant),
        Err(fault) => Err(StartFault::Claim(fault)),
    }
}
