//! What the log gives back, and where it begins in memory.

ghost use Rattle.std.specs.Prelude.{◌≡◌, ◌≢◌, Err, IfOk, OnErr, map};
ghost use Rattle.world.specs.Forgetting.{Forgets, least_confirmed, least_read, needed_from};
ghost use Rattle.world.specs.Machine.{IsMachine, world_of};
ghost use Rattle.world.specs.Starts.{start_state};

use crate::machine::Machine;
use crate::printed::answer::Answer;
use crate::reading::kept_place;
use crate::stepping::start::Start;
use schedule::WorldFault;
use shared_log::LogName;
use slots::{Slot, SlotName};

impl<L: LogName + SlotName> Machine<L> {
    /// Gives back what no slot, no stream in progress and no transaction in progress needs. V3 where the log lets no reader in.
    ///
    /// Where an open start has read may lie in the midst of transactions that began before what is there: then nothing more goes.
    pub(crate) fn forget(&mut self) -> Result<Answer, WorldFault>
        requires machine { IsMachine self.old }
        ensures forgets { IfOk result (λ a. Forgets (world_of self.old) a (world_of self.new)) }
        ensures happens { result ≢ Err WorldFault.BadEvent }
        ensures memory { result ≢ Err WorldFault.Memory }
        ensures err { OnErr result (world_of self.new ≡ world_of self.old) }
        ensures machine { IsMachine self.new }
    {
        let needed = self.needed_from();
        match kept_place(&mut self.publisher, &mut self.counter, needed) {
            Some(place) => {
                self.publisher.give_back(place);
                Ok(Answer::Done)
            }
            None if 0 < self.publisher.given() => Ok(Answer::Done),
            None => Err(WorldFault::NoEntry),
        }
    }

    /// The least position from which a stream of a slot or one in progress goes on.
    fn needed_from(&self) -> u64
        ensures { result ≡ needed_from (world_of self.now) }
    {
        let confirmed = least_confirmed(self.slots.slots(), self.publisher.end());
        least_read(self.starts.as_slice(), confirmed)
    }

    /// How many records of the log were given back.
    pub(crate) fn front(&self) -> Answer
        ensures { result ≡ Answer.Front (world_of self.now).publisher.given }
    {
        Answer::Front(self.publisher.given())
    }
}

/// The least of a position and those that slots are confirmed at.
fn least_confirmed(slots: &[Slot], position: u64) -> u64
    ensures { result ≡ least_confirmed slots.now position }
{
    let mut least = position;
    for slot in slots {
        least = least.min(slot.confirmed());
    }
    least
}

/// The least of a position and those up to which the open ones of the starts have read.
fn least_read<L: LogName>(starts: &[Start<L>], position: u64) -> u64
    ensures { result ≡ least_read (map start_state starts.now) position }
{
    let mut least = position;
    for start in starts {
        if start.is_open() {
            least = least.min(start.position());
        }
    }
    least
}
