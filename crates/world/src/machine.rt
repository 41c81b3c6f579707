//! The publisher with its sessions and the starts of its senders.

ghost use Rattle.std.specs.Prelude.{◌≡◌, ◌≢◌, ◌≤◌, ◌<◌, ◌+◌, map, is_some, true, Err, IfErr, IfOk, IfSome, IsNone, None, OnErr, Some, vec_capacity, vec_len};
ghost use Rattle.std.specs.List.{AllByRecursion};
ghost use Rattle.txlog.specs.Publishing.{new_publisher};
ghost use Rattle.world.specs.State.{new_world, open_start};
ghost use Rattle.world.specs.Start.{running_count};
ghost use Rattle.world.specs.ConnectionLines.{ActsAt};
ghost use Rattle.world.specs.Acting.{is_read as reads_log, takes_memory as takes_memory_of};
ghost use Rattle.world.specs.Delivering.{Delivers};
ghost use Rattle.schedule.specs.SessionLines.{ask_of, line_takes_memory};
ghost use Rattle.world.specs.Steps.{IsLineOf, IsStep, IsStepAt, is_bad, is_bad_at, is_read, is_read_at, takes_memory, takes_memory_at};
ghost use Rattle.world.specs.Machine.{ActsIn, IsMachine, IsOpenAt, IsOpenStartAt, subscriber_place, world_of};
ghost use Rattle.world.specs.Starts.{IsServed, start_state};

use crate::limits::MAX_SENDERS;
use crate::opening::{close, place_among};
use crate::printed::answer::Answer;
use crate::stepping::action::Action;
use crate::stepping::start::Start;
use crate::subscriber::{Subscriber, place_of, reconnect};
use catalog::Catalog;
use configuration::Config;
use indexmap::IndexSet;
use pqformat::Text;
use publication::Publications;
use replcmd::is_slot_name;
use schedule::{ConnectionStep, Event, Sessions, WorldFault};
use shared_log::{LogName, LogReader};
use slots::{HeldSlots, OpenedSlots, SlotName, let_go};
use std::alloc::Global;
use std::sync::Wait;
use txlog::{MAX_RECORDS, Publisher, PublisherParts, SessionFault};

/// A publisher, its slots, its sessions by name, every start of a sender, where the open ones stand, in order, the readers that serve none
/// of them, and the subscribers.
pub(crate) struct Machine<L: LogName + SlotName> {
    pub(crate) publications: Publications,
    pub(crate) publisher: Publisher<L>,
    pub(crate) slots: HeldSlots<L>,
    pub(crate) sessions: Sessions,
    pub(crate) starts: Vec<Start<L>>,
    pub(crate) opened: Vec<usize>,
    pub(crate) readers: Vec<LogReader<L>>,
    /// Finds what of the log can be given back.
    pub(crate) counter: LogReader<L>,
    pub(crate) subscribers: Vec<Subscriber>,
    /// The names of their connections, in the same order.
    pub(crate) names: IndexSet<String>,
    /// The chunks of a sender's arena.
    pub(crate) chunks: u32,
}

impl<L: LogName + SlotName> Machine<L> {
    pub(crate) fn new<R: Wait>(
        rt: &R,
        alloc: Global,
        history: shared_log::EmptyHistory,
        table: OpenedSlots,
        config: Config,
    ) -> Result<Self, WorldFault>
        requires log { history.seen.book ≡ L.book }
        requires slots { table.first.table_id ≡ L.table }
        ensures start { IfOk result (λ m. world_of m ≡ new_world config) }
        ensures err { IfErr result (λ e. e ≡ WorldFault.Memory) }
        ensures machine { IfOk result IsMachine }
    {
        let Ok(slots) = HeldSlots::open(alloc, table) else {
            // Let go by one call each, which keeps the proof short.
            drop(config);
            drop(history);
            return Err(WorldFault::Memory);
        };
        let (catalog, publications, server) = config.into_parts();
        match publisher_of(rt, alloc, history, catalog, server.records) {
            Ok((publisher, readers, counter)) => {
                return Ok(Machine {
                    publications,
                    publisher,
                    slots,
                    sessions: Sessions::new(alloc),
                    starts: Vec::new(alloc),
                    opened: Vec::new(alloc),
                    readers,
                    counter,
                    subscribers: Vec::new(alloc),
                    names: IndexSet::new(alloc),
                    chunks: server.chunks as u32,
                });
            }
            Err(_) => {
                slots.close();
                // Let go by one call, which keeps the proof short.
                drop(publications);
                return Err(WorldFault::Memory);
            }
        }
    }

    /// Ends the senders and their readers, releases the slots, leaves every transaction as it is, and ends the log.
    pub(crate) fn close<R: Wait>(self, rt: &R) {
        let Machine {
            publications: _,
            publisher,
            slots,
            sessions,
            starts,
            opened: _,
            readers,
            counter,
            subscribers: _,
            names: _,
            chunks: _,
        } = self;
        slots.close();
        drop(starts);
        drop(readers);
        drop(counter);
        sessions.leave_all(&publisher);
        publisher.close(rt);
    }

    /// Whether the event can't happen now, since its name is unknown or wrongly repeated.
    pub(crate) fn is_bad(&self, event: &Event) -> bool
        requires machine { IsMachine self.now }
        ensures { result ≡ is_bad event.now (world_of self.now) }
    {
        match event {
            Event::Session(name, step) => self.sessions.refuses(name, step),
            Event::Note(_, _) => false,
            Event::Connection(name, step) => self.is_bad_at(name, step),
            Event::Slot(name) => !is_slot_name(name.as_str()),
            Event::Forget | Event::Front => false,
        }
    }

    fn is_bad_at(&self, name: &Text, step: &ConnectionStep) -> bool
        requires machine { IsMachine self.now }
        ensures { result ≡ is_bad_at name.now step.now (world_of self.now) }
    {
        match step {
            ConnectionStep::Start(_, _, _) => self.is_connected(name),
            ConnectionStep::Ack => !self.has_status(name),
            ConnectionStep::Read(_, _)
            | ConnectionStep::Keepalive(_)
            | ConnectionStep::Drain(_)
            | ConnectionStep::Deliver(_)
            | ConnectionStep::Status(_)
            | ConnectionStep::Flushed(_)
            | ConnectionStep::Cut => !self.is_connected(name),
        }
    }

    /// Does one line. A fault is that of a line that doesn't happen at all, and changes nothing.
    pub(crate) fn step<R: Wait>(&mut self, rt: &R, event: &Event) -> Result<Answer, WorldFault>
        requires machine { IsMachine self.old }
        ensures step { IfOk result
            (λ a. IsStep (world_of self.old) event.now a (world_of self.new)) }
        ensures bad { result ≡ Err WorldFault.BadEvent
            → is_bad event.now (world_of self.old) ≡ true }
        ensures entry { result ≡ Err WorldFault.NoEntry → is_read event.now ≡ true }
        ensures memory { result ≡ Err WorldFault.Memory →
            takes_memory event.now (world_of self.old) ≡ true }
        ensures err { OnErr result (world_of self.new ≡ world_of self.old) }
        ensures machine { IsMachine self.new }
    {
        match event {
            Event::Session(_, _) | Event::Note(_, _) => self.call(rt, event),
            Event::Connection(name, step) => self.step_at(name, step),
            Event::Slot(name) => Ok(self.create(name)),
            Event::Forget => self.forget(),
            Event::Front => Ok(self.front()),
        }
    }

    /// Does the line of a connection.
    fn step_at(&mut self, name: &Text, step: &ConnectionStep) -> Result<Answer, WorldFault>
        requires machine { IsMachine self.old }
        ensures step { IfOk result
            (λ a. IsStepAt name.now step.now (world_of self.old) a (world_of self.new)) }
        ensures bad { result ≡ Err WorldFault.BadEvent →
            is_bad_at name.now step.now (world_of self.old) ≡ true }
        ensures entry { result ≡ Err WorldFault.NoEntry → is_read_at step.now ≡ true }
        ensures memory { result ≡ Err WorldFault.Memory →
            takes_memory_at step.now (world_of self.old) ≡ true }
        ensures err { OnErr result (world_of self.new ≡ world_of self.old) }
        ensures machine { IsMachine self.new }
    {
        let alloc = *self.starts.allocator();
        match step {
            ConnectionStep::Start(slot, position, options) => {
                self.start(alloc, name, slot, *position, options)
            }
            ConnectionStep::Read(max, clock) => self.act(alloc, name, Action::Read(*max, *clock)),
            ConnectionStep::Keepalive(clock) => self.act(alloc, name, Action::Keepalive(*clock)),
            ConnectionStep::Drain(max) => self.act(alloc, name, Action::Drain(*max)),
            ConnectionStep::Deliver(max) => self.deliver(name, *max),
            ConnectionStep::Status(clock) => self.put_back(name, None, *clock),
            ConnectionStep::Flushed(number) => self.put_back(name, Some(*number), 0),
            ConnectionStep::Ack => self.acknowledge(name),
            ConnectionStep::Cut => self.act(alloc, name, Action::Cut),
        }
    }

    /// Does a session's line. What a commit tells nobody waits for.
    fn call<R: Wait>(&mut self, rt: &R, event: &Event) -> Result<Answer, WorldFault>
        requires machine { IsMachine self.old }
        ensures done { IfOk result
            (λ a. IsLineOf
            (ask_of event.now (world_of self.old).publisher (world_of self.old).transactions)
            (world_of self.old) a (world_of self.new)) }
        ensures rest { world_of self.new
            ≡ record (world_of self.old) {
              publisher = (world_of self.new).publisher;
              transactions = (world_of self.new).transactions;
            } }
        ensures bad { result ≡ Err WorldFault.BadEvent →
            IsNone
            (ask_of event.now (world_of self.old).publisher (world_of self.old).transactions) }
        ensures entered { result ≢ Err WorldFault.NoEntry }
        ensures memory { result ≡ Err WorldFault.Memory →
            line_takes_memory event.now (world_of self.old).publisher ≡ true }
        ensures err { OnErr result (world_of self.new ≡ world_of self.old) }
        ensures machine { IsMachine self.new }
    {
        let (answer, _) = self.sessions.line(rt, &mut self.publisher, event)?;
        Ok(Answer::of_session(answer))
    }

    /// Does what a line asks of the connection's sender. V1 where it has none.
    fn act(&mut self, alloc: Global, name: &Text, action: Action) -> Result<Answer, WorldFault>
        requires machine { IsMachine self.old }
        ensures acts { IfOk result
            (λ a. ActsAt name.now action (world_of self.old) a (world_of self.new)) }
        ensures bad { result ≡ Err WorldFault.BadEvent →
            IsNone (open_start name.now (world_of self.old).starts) }
        ensures entry { result ≡ Err WorldFault.NoEntry → reads_log action ≡ true }
        ensures memory { result ≡ Err WorldFault.Memory → takes_memory_of action ≡ true }
        ensures err { OnErr result (world_of self.new ≡ world_of self.old) }
        ensures machine { IsMachine self.new }
    {
        let found = place_among(self.starts.as_slice(), self.opened.as_slice(), name);
        let Some(place) = found else {
            return Err(WorldFault::BadEvent);
        };
        let answer = act_at(
            &mut self.starts,
            place,
            alloc,
            &mut self.publisher,
            &mut self.readers,
            action,
        )?;
        match action {
            Action::Cut => {
                close(&mut self.opened, place);
                let slot = reconnect(&self.names, &mut self.subscribers, name);
                let_go(&mut self.slots, slot);
            }
            _ => {}
        }
        Ok(answer)
    }

    /// Hands bytes of the connection's sender to its subscriber. V1 where it has no sender.
    fn deliver(&mut self, name: &Text, max: u32) -> Result<Answer, WorldFault>
        requires machine { IsMachine self.old }
        ensures delivers { IfOk result
            (λ a. Delivers name.now max (world_of self.old) a (world_of self.new)) }
        ensures bad { result ≡ Err WorldFault.BadEvent →
            IsNone (open_start name.now (world_of self.old).starts) }
        ensures entered { result ≢ Err WorldFault.NoEntry }
        ensures memory { result ≢ Err WorldFault.Memory }
        ensures err { OnErr result (world_of self.new ≡ world_of self.old) }
        ensures machine { IsMachine self.new }
    {
        let Some((place, at)) = self.places_of(name) else {
            return Err(WorldFault::BadEvent);
        };
        let start = &self.starts[place];
        Ok(self.subscribers[at].take(start.produced(), max))
    }

    /// The places of the connection's open start and of its subscriber, where it has a sender.
    pub(crate) fn places_of(&self, name: &Text) -> Option<(usize, usize)>
        requires machine { IsMachine self.now }
        ensures none { result ≡ None → IsNone (open_start name.now (world_of self.now).starts) }
        ensures start { IfSome result (λ p. IsOpenStartAt name.now p.0 self.now.starts.items) }
        ensures subscriber { IfSome result
            (λ p. subscriber_place 0 name.now (world_of self.now).subscribers ≡ Some p.1) }
    {
        let found = place_among(self.starts.as_slice(), self.opened.as_slice(), name);
        let Some(place) = found else {
            return None;
        };
        let Some(at) = place_of(&self.names, name) else {
            unreachable!();
        };
        Some((place, at))
    }

    pub(crate) fn is_connected(&self, name: &Text) -> bool
        requires machine { IsMachine self.now }
        ensures { result ≡ is_some (open_start name.now (world_of self.now).starts) }
    {
        place_among(self.starts.as_slice(), self.opened.as_slice(), name).is_some()
    }
}

/// A publisher for this many records, the readers of its log, and one more, which serves no sender.
fn publisher_of<L: LogName, R: Wait>(
    rt: &R,
    alloc: Global,
    history: shared_log::EmptyHistory,
    catalog: Catalog,
    records: usize,
) -> Result<(Publisher<L>, Vec<LogReader<L>>, LogReader<L>), SessionFault>
    requires name { history.seen.book ≡ L.book }
    requires some { 1 ≤ records }
    requires few { records ≤ MAX_RECORDS }
    ensures ok { IfOk result (λ made. made.0 ≡ new_publisher catalog records) }
    ensures readers { IfOk result (λ made. vec_len made.1 ≡ MAX_SENDERS) }
{
    let opened = PublisherParts::over(alloc, history, catalog, records, MAX_SENDERS + 1)?;
    let (publisher, mut readers) = Publisher::open(rt, opened)?;
    match readers.pop() {
        Some(counter) => Ok((publisher, readers, counter)),
        None => unreachable!(),
    }
}

fn act_at<L: LogName>(
    starts: &mut Vec<Start<L>>,
    place: usize,
    alloc: Global,
    publisher: &mut Publisher<L>,
    readers: &mut Vec<LogReader<L>>,
    action: Action,
) -> Result<Answer, WorldFault>
    requires opened { IsOpenAt place starts.old.items }
    requires all { AllByRecursion (IsServed publisher.old.log) starts.old.items }
    requires room { vec_len readers.old < vec_capacity readers.old }
    ensures acts { IfOk result
        (λ a. ActsIn publisher.old.log place action starts.old.items a starts.new.items) }
    ensures entry { result ≡ Err WorldFault.NoEntry → reads_log action ≡ true }
    ensures memory { result ≡ Err WorldFault.Memory → takes_memory_of action ≡ true }
    ensures err { OnErr result
        (map start_state starts.new.items ≡ map start_state starts.old.items) }
    ensures happens { result ≢ Err WorldFault.BadEvent }
    ensures all { AllByRecursion (IsServed publisher.old.log) starts.new.items }
    ensures same { publisher.new ≡ publisher.old }
    ensures readers { vec_len readers.new + running_count (map start_state starts.new.items)
        ≡ vec_len readers.old + running_count (map start_state starts.old.items) }
    ensures capacity { vec_capacity readers.new ≡ vec_capacity readers.old }
{
    starts[place].act(alloc, publisher, readers, action)
}
