//! Slots that are created, and the statuses that subscribers send back.

ghost use Rattle.std.specs.Prelude.{◌≡◌, ◌≢◌, ◌&&◌, Err, IfOk, IsNone, OnErr, false, is_some};
ghost use Rattle.world.specs.State.{open_start, subscriber_of};
ghost use Rattle.world.specs.Slots.{Acknowledges, Creates, PutsBack, has_status, status_with};
ghost use Rattle.world.specs.Machine.{IsMachine, world_of};

use crate::machine::Machine;
use crate::printed::answer::Answer;
use crate::subscriber::has_status;
use pqformat::Text;
use schedule::WorldFault;
use shared_log::LogName;
use slots::{SlotName, confirm};

impl<L: LogName + SlotName> Machine<L> {
    /// Creates a slot at the end of the log.
    pub(crate) fn create(&mut self, name: &Text) -> Answer
        requires machine { IsMachine self.old }
        ensures creates { Creates name.now (world_of self.old) result (world_of self.new) }
        ensures machine { IsMachine self.new }
    {
        let end = self.publisher.end();
        match self.slots.create(name.as_str(), end) {
            Ok(()) => Answer::Done,
            Err(fault) => Answer::Slot(fault),
        }
    }

    /// Whether the connection has a sender, and a status of its subscriber waits.
    pub(crate) fn has_status(&self, name: &Text) -> bool
        requires machine { IsMachine self.now }
        ensures { result
            ≡ (is_some (open_start name.now (world_of self.now).starts)
            && has_status (subscriber_of name.now (world_of self.now).subscribers)) }
    {
        self.is_connected(name) && has_status(&self.names, self.subscribers.as_slice(), name)
    }

    /// The connection's subscriber puts a status into the pipe back. V1 where there is no sender.
    pub(crate) fn put_back(
        &mut self,
        name: &Text,
        flushed: Option<u64>,
        clock: i64,
    ) -> Result<Answer, WorldFault>
        requires machine { IsMachine self.old }
        ensures puts { IfOk result
            (λ a. PutsBack name.now (status_with flushed clock) (world_of self.old) a
            (world_of self.new)) }
        ensures bad { result ≡ Err WorldFault.BadEvent →
            IsNone (open_start name.now (world_of self.old).starts) }
        ensures entered { result ≢ Err WorldFault.NoEntry }
        ensures err { OnErr result (world_of self.new ≡ world_of self.old) }
        ensures machine { IsMachine self.new }
    {
        let Some((_, at)) = self.places_of(name) else {
            return Err(WorldFault::BadEvent);
        };
        self.subscribers[at].put_back(flushed, clock)?;
        Ok(Answer::Done)
    }

    /// Takes the next status of the connection's pipe back, and confirms its flushed position at the slot, cut to what the sender
    /// has read. V1 where there is no sender or no status waits.
    pub(crate) fn acknowledge(&mut self, name: &Text) -> Result<Answer, WorldFault>
        requires machine { IsMachine self.old }
        ensures acknowledges { IfOk result
            (λ a. Acknowledges name.now (world_of self.old) a (world_of self.new)) }
        ensures bad { result ≡ Err WorldFault.BadEvent →
            (is_some (open_start name.now (world_of self.old).starts)
            && has_status (subscriber_of name.now (world_of self.old).subscribers))
            ≡ false }
        ensures entered { result ≢ Err WorldFault.NoEntry }
        ensures memory { result ≢ Err WorldFault.Memory }
        ensures err { OnErr result (world_of self.new ≡ world_of self.old) }
        ensures machine { IsMachine self.new }
    {
        let Some((place, at)) = self.places_of(name) else {
            return Err(WorldFault::BadEvent);
        };
        let subscriber = &mut self.subscribers[at];
        let Some(status) = subscriber.next_status() else {
            return Err(WorldFault::BadEvent);
        };
        let read = self.starts[place].position();
        confirm(&mut self.slots, &subscriber.slot, status.flushed.min(read));
        Ok(Answer::Done)
    }
}
