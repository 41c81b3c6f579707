//! A run of events over the whole publisher.

ghost use Rattle.std.specs.Prelude.{◌≡◌, ◌<◌, ◌↔◌, ◌++◌, ◌∷◌, [], ℕ, List, None, true, map, Err, IfOk, IfErr, OnErr, OnOk, vec_capacity, vec_len};
ghost use Rattle.slots.specs.Keeping.{confirmed_slot};
ghost use Rattle.world.specs.State.{new_world};
ghost use Rattle.world.specs.Law.{Headline};
ghost use Rattle.world.specs.Confirming.{confirmed_at, confirmed_through};
ghost use Rattle.world.specs.Once.{RunsOnce};
ghost use Rattle.world.specs.Steps.{IsRun, IsStep, is_bad, is_read, takes_memory};
ghost use Rattle.world.specs.Ending.{HasStopped};
ghost use Rattle.world.specs.Starts.{start_state};
ghost use Rattle.world.specs.Machine.{IsMachine, subscriber_state, world_of};
ghost use Rattle.wal.specs.Log.{IsWellFormedLog};

use crate::machine::Machine;
use crate::printed::answer::Answer;
use crate::stepping::start::Start;
use crate::subscriber::Subscriber;
use configuration::Config;
use schedule::{Event, WorldFault};
use shared_log::{EmptyHistory, LogName};
use slots::{OpenedSlots, Slot, SlotName};
use std::alloc::Global;
use std::marker::Model;
use std::sync::Wait;

/// The publisher, its sessions and connections, and what the events so far answered.
///
/// `new` makes one and `step` does an event in it; `run` is both for a list of events. It isn't `Drop`: `close` ends it. An event that happens answers
/// `Done`, or the refusal of the part that it asked. One that doesn't happen is a `WorldFault`, and changes nothing.
pub struct World<L: LogName + SlotName> {
    machine: Machine<L>,
    answers: Vec<Answer>,
}

/// Why a run ended before its events did.
pub enum RunFault<L: LogName + SlotName> {
    /// V2: there was no memory for a world.
    New,
    /// The next event didn't happen. The world is as those before it left it, and has their answers.
    Step(World<L>, WorldFault),
}

impl<L: LogName + SlotName> Model for World<L> {
    ghost use Rattle.std.specs.Coded.{codes};
    ghost use Rattle.publication.specs.Publications.{condition_code};
    ghost use Rattle.world.specs.State.{WorldView};
    ghost use Rattle.world.specs.Machine.{IsMachine, world_of};

    ghost Value = { WorldView };

    ghost coded = { Prim.hlevel (codes, condition_code (Prim.hlevel codes)) };

    ghost view = { λ w. record { state = world_of w.machine; answers = w.answers.items } };

    ghost invariant = { λ w. IsMachine w.machine };
}

impl<L: LogName + SlotName> World<L> {
    /// A world with an empty log. `Memory` (V2) where there was no memory for it.
    pub fn new<R: Wait>(
        rt: &R,
        alloc: Global,
        history: EmptyHistory,
        slots: OpenedSlots,
        config: Config,
    ) -> Result<Self, WorldFault>
        requires log { history.seen.book ≡ L.book }
        requires slots { slots.first.table_id ≡ L.table }
        ensures start { IfOk result (λ w. w ≡ record { state = new_world config; answers = [] }) }
        ensures err { IfErr result (λ e. e ≡ WorldFault.Memory) }
    {
        Ok(World {
            machine: Machine::new(rt, alloc, history, slots, config)?,
            answers: Vec::new(alloc),
        })
    }

    /// Does one event, keeps what it answered, and answers it. `BadEvent` (V1) exactly where its name is unknown or wrongly
    /// repeated, `Memory` (V2) of the event or for the place of its answer, and `NoEntry` (V3) where the log that it reads, or
    /// begins to read, gives it no records; each changes nothing.
    pub fn step<R: Wait>(&mut self, rt: &R, event: &Event) -> Result<Answer, WorldFault>
        ensures step { IfOk result (λ a. IsStep self.old.state event.now a self.new.state) }
        ensures kept { IfOk result (λ a. self.new.answers ≡ self.old.answers ++ a ∷ []) }
        ensures bad { (result ≡ Err WorldFault.BadEvent)
            ↔ (is_bad event.now self.old.state ≡ true) }
        ensures entry { result ≡ Err WorldFault.NoEntry → is_read event.now ≡ true }
        ensures err { OnErr result (self.new ≡ self.old) }
        ensures headline { Headline self.new.state }
        ensures log { IsWellFormedLog self.new.state.publisher.log }
    {
        if self.machine.is_bad(event) {
            return Err(WorldFault::BadEvent);
        }
        self.answers.reserve(1)?;
        let answer = self.machine.step(rt, event)?;
        self.answers.push(answer).unwrap();
        Ok(answer)
    }

    /// Does the events one after the other, up to the first that doesn't happen. Then `Step` hands the world back with the
    /// fault, to be closed. `New` (V2) is want of memory for a world, and for the places of all answers, so that `Memory` (V2)
    /// in `Step` is of an event alone.
    pub fn run<R: Wait>(
        rt: &R,
        alloc: Global,
        history: EmptyHistory,
        slots: OpenedSlots,
        config: Config,
        events: &[Event],
    ) -> Result<Self, RunFault<L>>
        requires log { history.seen.book ≡ L.book }
        requires slots { slots.first.table_id ≡ L.table }
        ensures run { IfOk result (λ w. IsRun (new_world config) events.now w.answers w.state) }
        ensures headline { IfOk result (λ w. Headline w.state) }
        ensures log { IfOk result (λ w. IsWellFormedLog w.state.publisher.log) }
        ensures confirmed { IfOk result
            (λ w. (name : List ℕ) (run : IsRun (new_world config) events.now w.answers w.state) →
            confirmed_at name w.state.slots
            ≡ confirmed_through name (new_world config) events.now w.answers w.state run
            None) }
        ensures once { IfOk result (λ w. RunsOnce (new_world config) events.now w.answers w.state) }
        ensures stops { IfErr result (λ fault. HasStopped (new_world config) events.now fault) }
    {
        let Ok(mut machine) = Machine::new(rt, alloc, history, slots, config) else {
            return Err(RunFault::New);
        };
        let Ok(mut answers) = Vec::with_capacity(alloc, events.len()) else {
            machine.close(rt);
            return Err(RunFault::New);
        };
        for event in events {
            if let Err(fault) = step_in(rt, &mut machine, &mut answers, event) {
                return Err(RunFault::Step(World { machine, answers }, fault));
            }
        }
        Ok(World { machine, answers })
    }

    /// Ends the log. Transactions in progress are left as they are.
    pub fn close<R: Wait>(self, rt: &R) {
        let World {
            machine,
            answers: _,
        } = self;
        machine.close(rt);
    }

    /// What each event answered, in order.
    pub fn answers(&self) -> &[Answer]
        ensures { result.now ≡ self.now.answers }
    {
        self.answers.as_slice()
    }

    /// Every start of a sender, in order, with what came of it.
    pub fn starts(&self) -> &[Start<L>]
        ensures { map start_state result.now ≡ self.now.state.starts }
    {
        self.machine.starts.as_slice()
    }

    /// The slots, in the order of their creation.
    pub fn slots(&self) -> &[Slot]
        ensures { result.now ≡ map confirmed_slot self.now.state.slots.slots }
    {
        self.machine.slots.slots()
    }

    /// The subscribers, in the order of their connections' first starts.
    pub fn subscribers(&self) -> &[Subscriber]
        ensures { map subscriber_state result.now ≡ self.now.state.subscribers }
    {
        self.machine.subscribers.as_slice()
    }
}

/// Does one event, for whose answer there is room.
fn step_in<L: LogName + SlotName, R: Wait>(
    rt: &R,
    machine: &mut Machine<L>,
    answers: &mut Vec<Answer>,
    event: &Event,
) -> Result<Answer, WorldFault>
    requires machine { IsMachine machine.old }
    requires room { vec_len answers.old < vec_capacity answers.old }
    ensures step { IfOk result
        (λ a. IsStep (world_of machine.old) event.now a (world_of machine.new)) }
    ensures kept { IfOk result (λ a. answers.new.items ≡ answers.old.items ++ a ∷ []) }
    ensures bad { (result ≡ Err WorldFault.BadEvent)
        ↔ (is_bad event.now (world_of machine.old) ≡ true) }
    ensures entry { result ≡ Err WorldFault.NoEntry → is_read event.now ≡ true }
    ensures memory { result ≡ Err WorldFault.Memory →
        takes_memory event.now (world_of machine.old) ≡ true }
    ensures err { OnErr result
        ((world_of machine.new ≡ world_of machine.old) × (answers.new ≡ answers.old)) }
    ensures capacity { OnOk result (vec_capacity answers.new ≡ vec_capacity answers.old) }
    ensures machine { IsMachine machine.new }
{
    if machine.is_bad(event) {
        return Err(WorldFault::BadEvent);
    }
    let answer = machine.step(rt, event)?;
    answers.push_reserved(answer);
    Ok(answer)
}
