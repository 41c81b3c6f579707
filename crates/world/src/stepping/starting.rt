//! The start of a sender: what it is judged by, what it takes, and where it begins to read.

ghost use Rattle.std.specs.Prelude.{◌≡◌, ◌≢◌, ◌<◌, ◌≤◌, ◌++◌, ◌∷◌, [], None, Err, IfErr, IfOk, IsNone, IsSome, OnErr, OnOk, false, vec_len};
ghost use Rattle.wal.specs.Restart.{restart, restart_place};
ghost use Rattle.slots.specs.Words.{is_held, is_missing, slot_named, start_from};
ghost use Rattle.world.specs.Acting.{new_start};
ghost use Rattle.world.specs.State.{new_subscriber, open_start, with_one_for};
ghost use Rattle.world.specs.ConnectionLines.{IsStart, start_refusal};
ghost use Rattle.world.specs.Starting.{IsStartWith, Told, world_after_start_with};
ghost use Rattle.world.specs.Machine.{HasRoom, IsMachine, IsResumed, subscriber_state, world_of};

use crate::machine::Machine;
use crate::printed::answer::Answer;
use crate::reading::resume;
use crate::stepping::start::Start;
use crate::subscriber::{Subscriber, subscribe};
use chgarena::Arena;
use pqformat::Text;
use publication::{PubFault, Publications, Selection};
use schedule::{StartOptions, WorldFault};
use shared_log::{LogName, ReadFault};
use slots::{HeldSlots, SlotFault, SlotName, is_held, is_missing, slot_named, start_from, take};
use std::alloc::{AllocError, Global};
use walsender::{ClaimFault, StartBackend, StartFault, begin};

impl<L: LogName + SlotName> Machine<L> {
    /// Starts a sender, which reads the log from the restart position of its start position on. L1 where no slot has the
    /// name, then P1, then P2, then L6 where no reader is left, then L2 where the slot is held.
    pub(crate) fn start(
        &mut self,
        alloc: Global,
        name: &Text,
        slot: &Text,
        position: u64,
        options: &StartOptions,
    ) -> Result<Answer, WorldFault>
        requires machine { IsMachine self.old }
        ensures start { IfOk result
            (λ a. IsNone (open_start name.now (world_of self.old).starts)
            × IsStart name.now (slot_named slot.now) position options.now (world_of self.old) a
            (world_of self.new)) }
        ensures bad { result ≡ Err WorldFault.BadEvent →
            IsSome (open_start name.now (world_of self.old).starts) }
        ensures memory { result ≡ Err WorldFault.Memory →
            start_refusal (slot_named slot.now) options.now.publications (world_of self.old)
            ≡ None }
        ensures err { OnErr result (world_of self.new ≡ world_of self.old) }
        ensures machine { IsMachine self.new }
    {
        if self.is_connected(name) {
            return Err(WorldFault::BadEvent);
        }
        let names = options.publications.as_slice();
        if let Some(refusal) = self.start_refusal(slot, names) {
            return Ok(refusal);
        }
        match self.publications.select(names) {
            Ok(selection) => {
                let selection = selection.with_messages(options.messages);
                self.start_with(alloc, name, slot, position, selection)
            }
            Err(fault) => Ok(Answer::Publication(fault)),
        }
    }

    /// Why a start is refused, if it is. It takes no memory.
    fn start_refusal(&self, slot: &Text, names: &[Text]) -> Option<Answer>
        requires machine { IsMachine self.now }
        ensures { result ≡ start_refusal (slot_named slot.now) names.now (world_of self.now) }
    {
        let mut facts = StartFacts {
            publications: &self.publications,
            slots: &self.slots,
            has_reader: !self.readers.is_empty(),
            slot,
            names,
        };
        match begin(&mut facts) {
            Ok(()) => None,
            Err(StartFault::NoSlot) => Some(Answer::Slot(SlotFault::Missing)),
            Err(StartFault::Publication(fault)) => Some(Answer::Publication(fault)),
            Err(StartFault::NoReader) => Some(Answer::NoReader),
            Err(StartFault::Claim(_)) => Some(Answer::Slot(SlotFault::InUse)),
        }
    }

    /// Starts a sender of this selection. L9 where the log gave back what it would read; nothing else but want of memory refuses it.
    fn start_with(
        &mut self,
        alloc: Global,
        name: &Text,
        slot: &Text,
        position: u64,
        selection: Selection,
    ) -> Result<Answer, WorldFault>
        requires machine { IsMachine self.old }
        requires slot { is_missing (slot_named slot.now) (world_of self.old).slots ≡ false }
        requires free { is_held (slot_named slot.now) (world_of self.old).slots ≡ false }
        requires reader { 0 < vec_len self.old.readers }
        ensures done { IfOk result
            (λ a. IsStartWith name.now (slot_named slot.now) position selection
            (world_of self.old) a (world_of self.new)) }
        ensures happens { result ≢ Err WorldFault.BadEvent }
        ensures err { OnErr result (world_of self.new ≡ world_of self.old) }
        ensures machine { IsMachine self.new }
    {
        let Ok(means) = self.reserve(alloc, name, slot) else {
            // Let go by one call, which keeps the proof short.
            drop(selection);
            return Err(WorldFault::Memory);
        };
        let start = self.start_from(slot, position);
        let first = match self.resume(start) {
            Ok(first) => first,
            Err(fault) => {
                // Let go by one call each, which keeps the proof short.
                drop(means);
                drop(selection);
                return self.unresumed(fault);
            }
        };
        let StartMeans {
            arena,
            key,
            subscriber,
            connection,
        } = means;
        match take(&mut self.slots, slot, position) {
            Ok(position) => {
                self.add(
                    alloc, subscriber, key, connection, selection, position, first, arena,
                );
                Ok(Answer::Done)
            }
            Err(_) => unreachable!(),
        }
    }

    /// Where a stream starts that asked for this position.
    fn start_from(&self, slot: &Text, position: u64) -> u64
        ensures { result ≡ start_from (slot_named slot.now) position (world_of self.now).slots }
    {
        start_from(&self.slots, slot, position)
    }

    /// Puts the reader that the next start takes where it begins to read for this start position, and answers the position there.
    fn resume(&mut self, start: u64) -> Result<u64, ReadFault>
        requires reader { 0 < vec_len self.old.readers }
        ensures same { world_of self.new ≡ world_of self.old }
        ensures first { IfOk result
            (λ first. first ≡ restart start (world_of self.old).publisher.log) }
        ensures resumed { IfOk result (λ first. IsResumed start first self.new) }
        ensures room { HasRoom self.old → HasRoom self.new }
        ensures readers { vec_len self.new.readers ≡ vec_len self.old.readers }
        ensures kept { OnOk result
            ((world_of self.old).publisher.given
            ≤ restart_place start (world_of self.old).publisher.log) }
        ensures machine { IsMachine self.old → IsMachine self.new }
    {
        let Some(mut reader) = self.readers.pop() else {
            unreachable!();
        };
        let resumed = resume(&mut self.publisher, &mut reader, start);
        let place = reader.place();
        self.readers.push_reserved(reader);
        let first = resumed?;
        let given = self.publisher.given();
        // A position in the midst of the last record that was given back may need that.
        if place < given || (0 < given && place == given && start < first) {
            return Err(ReadFault::Removed);
        }
        Ok(first)
    }

    /// What a start answers that could not be resumed.
    fn unresumed(&self, fault: ReadFault) -> Result<Answer, WorldFault>
        ensures removed { IfOk result
            (λ a. (a ≡ Answer.Removed) × (0 < (world_of self.now).publisher.given)) }
        ensures entry { IfErr result (λ fault. fault ≡ WorldFault.NoEntry) }
    {
        match fault {
            ReadFault::Removed if 0 < self.publisher.given() => Ok(Answer::Removed),
            _ => Err(WorldFault::NoEntry),
        }
    }

    /// Room for one more start, its arena, the connection's subscriber where it has none yet, and its name.
    fn reserve(&mut self, alloc: Global, name: &Text, slot: &Text) -> Result<StartMeans, AllocError>
        ensures same { world_of self.new ≡ world_of self.old }
        ensures room { OnOk result (HasRoom self.new) }
        ensures readers { vec_len self.new.readers ≡ vec_len self.old.readers }
        ensures machine { IsMachine self.old → IsMachine self.new }
        ensures subscriber { IfOk result
            (λ means. subscriber_state means.subscriber
            ≡ new_subscriber name.now (slot_named slot.now)) }
        ensures slot { IfOk result (λ means. means.subscriber.slot ≡ slot_named slot.now) }
        ensures connection { IfOk result
            (λ means. (means.connection ≡ name.now) × (means.key ≡ name.now)) }
    {
        self.make_room()?;
        let key = name.copy(alloc)?;
        let connection = name.copy(alloc)?;
        let arena = Arena::new(alloc, self.chunks as usize)?;
        match subscriber_of(alloc, name, slot) {
            Ok(subscriber) => Ok(StartMeans {
                arena,
                key,
                subscriber,
                connection,
            }),
            Err(fault) => {
                // Let go by one call, which keeps the proof short.
                drop(arena);
                Err(fault)
            }
        }
    }

    /// Room for one more start.
    fn make_room(&mut self) -> Result<(), AllocError>
        ensures same { world_of self.new ≡ world_of self.old }
        ensures room { OnOk result (HasRoom self.new) }
        ensures readers { vec_len self.new.readers ≡ vec_len self.old.readers }
        ensures machine { IsMachine self.old → IsMachine self.new }
    {
        self.starts.reserve(1)?;
        self.opened.reserve(1)?;
        self.names.reserve(1)?;
        self.subscribers.reserve(1)
    }

    /// Adds an open start with a reader, and its subscriber where the connection has none yet.
    fn add(
        &mut self,
        alloc: Global,
        subscriber: Subscriber,
        key: Text,
        connection: Text,
        selection: Selection,
        position: u64,
        first: u64,
        arena: Arena,
    )
        requires machine { IsMachine self.old }
        requires room { HasRoom self.old }
        requires reader { 0 < vec_len self.old.readers }
        requires resumed { IsResumed position first self.old }
        requires subscriber { subscriber_state subscriber
            ≡ new_subscriber connection subscriber.slot }
        requires key { key ≡ connection }
        ensures added { world_of self.new ≡ record (world_of self.old) {
          starts = (world_of self.old).starts ++ new_start connection selection position first ∷ [];
          subscribers = with_one_for connection subscriber.slot (world_of self.old).subscribers;
        } }
        ensures machine { IsMachine self.new }
    {
        let Some(reader) = self.readers.pop() else {
            unreachable!();
        };
        let start = Start::new(alloc, reader, connection, selection, position, first, arena);
        let place = self.starts.as_slice().len();
        self.opened.push_reserved(place);
        self.starts.push_reserved(start);
        subscribe(&mut self.names, &mut self.subscribers, subscriber, key);
    }
}

/// What a start takes memory for, beside its selection.
#[derive(Drop)]
struct StartMeans {
    arena: Arena,
    /// The connection's name twice: for its start, and for the index of subscribers.
    key: Text,
    connection: Text,
    subscriber: Subscriber,
}

/// A connection's subscriber that has applied nothing.
fn subscriber_of(alloc: Global, name: &Text, slot: &Text) -> Result<Subscriber, AllocError>
    ensures subscriber { IfOk result
        (λ made. subscriber_state made ≡ new_subscriber name.now (slot_named slot.now)) }
    ensures slot { IfOk result (λ made. made.slot ≡ slot_named slot.now) }
{
    let slot = slot_named(alloc, slot)?;
    Ok(Subscriber::new(alloc, name.copy(alloc)?, slot))
}

/// What a start is judged by before anything is taken: nothing else happens in a world meanwhile.
#[derive(Drop)]
pub(crate) struct StartFacts<'m, L: SlotName> {
    pub publications: &'m Publications,
    pub slots: &'m HeldSlots<L>,
    pub has_reader: bool,
    pub slot: &'m Text,
    pub names: &'m [Text],
}

impl<'m, L: SlotName> StartBackend for StartFacts<'m, L> {
    type Slot = ();

    type Reader = ();

    type Grant = ();

    ghost told = { Told };

    ghost granted = { λ facts grant. Unit {0} };

    fn find_slot(&mut self) -> Option<()> {
        if is_missing(self.slots, self.slot) {
            return None;
        }
        Some(())
    }

    fn judge(&mut self) -> Result<(), PubFault> {
        self.publications.judge(self.names)
    }

    fn take_reader(&mut self) -> Option<()> {
        if self.has_reader { Some(()) } else { None }
    }

    fn claim(&mut self, _slot: (), _reader: ()) -> Result<(), ClaimFault> {
        if is_held(self.slots, self.slot) {
            return Err(ClaimFault::Slot(SlotFault::InUse));
        }
        Ok(())
    }
}
