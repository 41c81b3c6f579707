//! A start of a connection's sender, and what it has produced.

ghost use Rattle.std.specs.Prelude.{◌≡◌, ◌≢◌, ◌+◌, ◌<◌, ◌∷◌, [], List, true, false, Err, IfOk, OnErr, vec_capacity, vec_len};
ghost use mathlib.Core.List.{IsPrefix};
ghost use Rattle.wal.specs.declared.record.Record.{Record};
ghost use Rattle.walsender.specs.Serving.{BeginsAt};
ghost use Rattle.world.specs.Start.{is_open_for, running_count};
ghost use Rattle.world.specs.Acting.{Acts, answer_of, is_read, new_start, takes_memory};
ghost use Rattle.world.specs.Starts.{IsServed, is_open, seen_at, start_state};

use crate::printed::answer::Answer;
use crate::reading::read_on;
use crate::stepping::action::Action;
use bytes::BytesMut;
use chgarena::Arena;
use pqformat::Text;
use publication::Selection;
use schedule::WorldFault;
use shared_log::{LogName, LogReader, ReadFault};
use std::alloc::Global;
use std::mem;
use txlog::Publisher;
use walsender::{Ended, SendFault, Walsender};

/// A start of a connection's sender. It is open until the connection is cut, and stays with what it produced.
#[derive(Drop)]
pub struct Start<L: LogName> {
    pub(crate) connection: Text,
    pub(crate) produced: BytesMut,
    pub(crate) stage: StartStage<L>,
}

/// The walsender, or what is left of it.
#[derive(Drop)]
pub(crate) enum StartStage<L: LogName> {
    Open(Walsender<L>),
    Cut(Ended),
}

impl<L: LogName> Start<L> {
    /// A sender of a reader that was resumed for its start position, with where that is and an arena for its changes.
    pub fn new(
        alloc: Global,
        reader: LogReader<L>,
        connection: Text,
        selection: Selection,
        position: u64,
        first: u64,
        arena: Arena,
    ) -> Self
        ensures fresh { start_state result ≡ new_start connection selection position first }
        ensures served { (log : List Record) → BeginsAt log position first reader.place →
            IsServed log result }
    {
        Start {
            connection,
            produced: BytesMut::new(alloc),
            stage: StartStage::Open(Walsender::begin(
                alloc, reader, selection, position, first, arena,
            )),
        }
    }

    /// The name by which the schedule calls the connection.
    pub fn connection(&self) -> &str
        ensures { result.now ≡ (start_state self.now).connection }
    {
        self.connection.as_str()
    }

    /// What the sender has produced since its start.
    pub fn produced(&self) -> &[u8]
        ensures { result.now ≡ (start_state self.now).produced }
    {
        self.produced.as_slice()
    }

    /// The end of the last record that its sender has read.
    pub fn position(&self) -> u64
        ensures { result ≡ (start_state self.now).position }
    {
        match &self.stage {
            StartStage::Open(walsender) => walsender.position(),
            StartStage::Cut(ended) => ended.position,
        }
    }

    /// Whether it has a sender.
    pub(crate) fn is_open(&self) -> bool
        ensures { result ≡ (start_state self.now).is_open }
    {
        matches!(&self.stage, StartStage::Open(_))
    }

    /// Whether this is an open start of the connection.
    pub fn is_open_for(&self, connection: &Text) -> bool
        ensures { result ≡ is_open_for connection.now (start_state self.now) }
    {
        self.connection.as_str() == connection.as_str()
            && matches!(&self.stage, StartStage::Open(_))
    }

    /// Does what a line asks of the sender. It is open; where it is cut, its reader goes back to the others. `Memory` (V2), and
    /// `NoEntry` (V3) where the log gives it no records, change nothing of it.
    pub fn act(
        &mut self,
        alloc: Global,
        publisher: &mut Publisher<L>,
        readers: &mut Vec<LogReader<L>>,
        action: Action,
    ) -> Result<Answer, WorldFault>
        requires served { IsServed publisher.old.log self.old }
        requires opened { is_open self.old.stage ≡ true }
        requires room { vec_len readers.old < vec_capacity readers.old }
        ensures acts { IfOk result
            (λ a. Acts publisher.old.log action (start_state self.old) a (start_state self.new)) }
        ensures err { OnErr result (start_state self.new ≡ start_state self.old) }
        ensures happens { result ≢ Err WorldFault.BadEvent }
        ensures entry { result ≡ Err WorldFault.NoEntry → is_read action ≡ true }
        ensures memory { result ≡ Err WorldFault.Memory → takes_memory action ≡ true }
        ensures served { IsServed publisher.old.log self.new }
        ensures same { publisher.new ≡ publisher.old }
        ensures readers { vec_len readers.new + running_count (start_state self.new ∷ [])
            ≡ vec_len readers.old + running_count (start_state self.old ∷ []) }
        ensures capacity { vec_capacity readers.new ≡ vec_capacity readers.old }
    {
        match action {
            Action::Read(max, clock) => return self.read(alloc, publisher, max, clock),
            Action::Keepalive(clock) => return Ok(self.keepalive(publisher, clock)),
            Action::Drain(max) => return self.drain(publisher, max),
            Action::Cut => return Ok(self.cut(alloc, publisher, readers)),
        }
    }

    fn read(
        &mut self,
        alloc: Global,
        publisher: &mut Publisher<L>,
        max: u32,
        clock: i64,
    ) -> Result<Answer, WorldFault>
        requires served { IsServed publisher.old.log self.old }
        requires opened { is_open self.old.stage ≡ true }
        ensures acts { IfOk result
            (λ a. Acts publisher.old.log (Action.Read max clock) (start_state self.old) a
            (start_state self.new)) }
        ensures err { OnErr result (start_state self.new ≡ start_state self.old) }
        ensures happens { result ≢ Err WorldFault.BadEvent }
        ensures memory { result ≡ Err WorldFault.Memory →
            IsPrefix publisher.old.log (seen_at self.new.stage) }
        ensures served { IsServed publisher.old.log self.new }
        ensures same { publisher.new ≡ publisher.old }
        ensures opened { is_open self.new.stage ≡ true }
    {
        let StartStage::Open(walsender) = &mut self.stage else {
            unreachable!();
        };
        match read_on(alloc, publisher, walsender, max as usize, clock) {
            Ok(fed) => Ok(answer_of(fed)),
            Err(fault) => Err(fault_of(fault)),
        }
    }

    fn keepalive(&mut self, publisher: &Publisher<L>, clock: i64) -> Answer
        requires served { IsServed publisher.now.log self.old }
        requires opened { is_open self.old.stage ≡ true }
        ensures acts { Acts publisher.now.log (Action.Keepalive clock) (start_state self.old) result
            (start_state self.new) }
        ensures served { IsServed publisher.now.log self.new }
        ensures opened { is_open self.new.stage ≡ true }
    {
        let StartStage::Open(walsender) = &mut self.stage else {
            unreachable!();
        };
        answer_of(walsender.keepalive(clock, false))
    }

    fn drain(&mut self, publisher: &Publisher<L>, max: u32) -> Result<Answer, WorldFault>
        requires served { IsServed publisher.now.log self.old }
        requires opened { is_open self.old.stage ≡ true }
        ensures acts { IfOk result
            (λ a. Acts publisher.now.log (Action.Drain max) (start_state self.old) a
            (start_state self.new)) }
        ensures err { OnErr result (start_state self.new ≡ start_state self.old) }
        ensures happens { result ≢ Err WorldFault.BadEvent }
        ensures entered { result ≢ Err WorldFault.NoEntry }
        ensures served { IsServed publisher.now.log self.new }
        ensures opened { is_open self.new.stage ≡ true }
    {
        let StartStage::Open(walsender) = &mut self.stage else {
            unreachable!();
        };
        walsender.drain_into(max as usize, &mut self.produced)?;
        Ok(Answer::Done)
    }

    /// What the sender still held is lost.
    fn cut(
        &mut self,
        alloc: Global,
        publisher: &Publisher<L>,
        readers: &mut Vec<LogReader<L>>,
    ) -> Answer
        requires served { IsServed publisher.now.log self.old }
        requires opened { is_open self.old.stage ≡ true }
        requires room { vec_len readers.old < vec_capacity readers.old }
        ensures acts { Acts publisher.now.log Action.Cut (start_state self.old) result
            (start_state self.new) }
        ensures served { IsServed publisher.now.log self.new }
        ensures closed { is_open self.new.stage ≡ false }
        ensures readers { vec_len readers.new ≡ vec_len readers.old + 1 }
        ensures capacity { vec_capacity readers.new ≡ vec_capacity readers.old }
    {
        let walsender = match mem::replace(&mut self.stage, nothing(alloc)) {
            StartStage::Open(walsender) => walsender,
            StartStage::Cut(_) => unreachable!(),
        };
        let (ended, reader) = walsender.end();
        readers.push_reserved(reader);
        // (an assignment does the same, and takes longer to prove)
        drop(mem::replace(&mut self.stage, StartStage::Cut(ended)));
        Answer::Done
    }
}

/// What the sender made of a line.
fn answer_of(made: Result<(), SendFault>) -> Answer
    ensures { result ≡ answer_of made }
{
    match made {
        Ok(()) => Answer::Done,
        Err(fault) => Answer::Sender(fault),
    }
}

/// Why a line didn't happen that the log gave no records for.
fn fault_of(fault: ReadFault) -> WorldFault
    ensures happens { result ≢ WorldFault.BadEvent }
    ensures memory { result ≡ WorldFault.Memory → fault ≡ ReadFault.Memory }
{
    match fault {
        // What an open start reads is not given back, so nobody meets `Removed`.
        ReadFault::NoEntry | ReadFault::Stale | ReadFault::Removed => WorldFault::NoEntry,
        ReadFault::Memory => WorldFault::Memory,
    }
}

/// What stands in the place of a walsender while it ends.
fn nothing<L: LogName>(alloc: Global) -> StartStage<L> {
    StartStage::Cut(Ended {
        selection: Selection::empty(alloc),
        start: 0,
        position: 0,
    })
}
