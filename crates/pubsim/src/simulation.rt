//! A run of a schedule from its text to its report.

ghost use Rattle.std.specs.Prelude.{◌≡◌, Err, false};
ghost use Rattle.pubsim.specs.declared.simulation.SimFault.{SimFault};
ghost use Rattle.pubsim.specs.Simulation.{is_bad_schedule, is_writing};

use crate::rendering::write_rendered;
use configuration::Config;
use schedule::{BadEvent, Schedule, ScheduleFault, WorldFault};
use shared_log::{EmptyHistory, LogName};
use slots::{OpenedSlots, SlotName};
use std::alloc::Global;
use std::io;
use std::io::{Read, Write};
use std::marker::Brand;
use std::sync::Wait;
use thiserror::Error;
use world::{
    RunFault, Subscriber, World, write_answers, write_slot, write_stream, write_subscriber,
};

/// How what a sender produced is written: its bytes in hexadecimal, or a line for each frame.
#[derive(Clone, Copy, PartialEq, Eq)]
pub enum ReportForm {
    Digits,
    Text,
}

/// Why a schedule was not run and reported.
#[derive(Debug, Drop, Error)]
pub enum SimFault {
    #[error("the schedule cannot be read: {0}")]
    Read(io::Error),
    #[error("the schedule is not UTF-8")]
    NotUtf8,
    #[error("{0}")]
    Line(ScheduleFault),
    #[error("{0}")]
    Event(BadEvent),
    #[error("out of memory")]
    Memory,
    #[error("the log lets no reader in")]
    NoEntry,
    #[error("the report cannot be written: {0}")]
    Write(io::Error),
}

impl SimFault {
    /// Whether the schedule itself is refused, and not for want of memory, a file or a place to print.
    pub fn is_bad_schedule(&self) -> bool
        ensures { result ≡ is_bad_schedule self.now }
    {
        match self {
            SimFault::NotUtf8 => true,
            SimFault::Line(line) => line.fault == WorldFault::BadEvent,
            SimFault::Event(_) => true,
            SimFault::Read(_) | SimFault::Memory | SimFault::NoEntry | SimFault::Write(_) => false,
        }
    }
}

/// Reads the whole schedule, runs its events and writes the report: a line for each event that was refused or asked for the
/// front of the log, then one for each start of a sender, each slot, and each subscriber that got a byte. Where that fails, nothing was written, unless the writing itself failed.
pub fn simulate<R: Wait, I: Read, W: Write>(
    rt: &R,
    alloc: Global,
    config: Config,
    form: ReportForm,
    input: &mut I,
    output: &mut W,
) -> Result<(), SimFault>
    ensures silent { (fault : SimFault) → result ≡ Err fault → is_writing fault ≡ false →
        output.new ≡ output.old }
{
    let schedule = read_schedule(alloc, input)?;
    let slots = OpenedSlots::new(alloc).map_err(|_| SimFault::Memory)?;
    report_run::<Brand, R, W>(
        rt,
        alloc,
        EmptyHistory::new(),
        slots,
        config,
        schedule,
        form,
        output,
    )
}

/// Runs the events over a log that the call names, and writes the report.
fn report_run<L: LogName + SlotName, R: Wait, W: Write>(
    rt: &R,
    alloc: Global,
    history: EmptyHistory,
    slots: OpenedSlots,
    config: Config,
    schedule: Schedule,
    form: ReportForm,
    output: &mut W,
) -> Result<(), SimFault>
    requires log { history.seen.book ≡ L.book }
    requires slots { slots.first.table_id ≡ L.table }
    ensures silent { (fault : SimFault) → result ≡ Err fault → is_writing fault ≡ false →
        output.new ≡ output.old }
{
    match World::<L>::run(rt, alloc, history, slots, config, schedule.events()) {
        Ok(world) => {
            let written = write_report(alloc, output, &schedule, form, &world);
            world.close(rt);
            written.map_err(SimFault::Write)
        }
        Err(RunFault::New) => Err(SimFault::Memory),
        Err(RunFault::Step(world, fault)) => {
            let done = world.answers().len();
            world.close(rt);
            Err(stopped(schedule, done, fault))
        }
    }
}

/// The fault of the event after so many that happened.
fn stopped(schedule: Schedule, done: usize, fault: WorldFault) -> SimFault {
    match fault {
        WorldFault::NoEntry => SimFault::NoEntry,
        WorldFault::Memory => SimFault::Memory,
        WorldFault::BadEvent => match schedule.into_bad_event(done) {
            Some(event) => SimFault::Event(event),
            None => SimFault::Memory,
        },
    }
}

fn read_schedule<R: Read>(alloc: Global, input: &mut R) -> Result<Schedule, SimFault> {
    let text = read_text(alloc, input)?;
    Schedule::parse(alloc, text.as_str()).map_err(SimFault::Line)
}

fn read_text<R: Read>(alloc: Global, input: &mut R) -> Result<String, SimFault> {
    let mut bytes = Vec::new(alloc);
    input.read_to_end(&mut bytes).map_err(SimFault::Read)?;
    String::from_utf8(bytes).map_err(|_| SimFault::NotUtf8)
}

fn write_report<L: LogName + SlotName, W: Write>(
    alloc: Global,
    output: &mut W,
    schedule: &Schedule,
    form: ReportForm,
    world: &World<L>,
) -> io::Result<()> {
    write_answers(output, schedule.lines(), world.answers())?;
    write_streams(alloc, output, form, world)?;
    for slot in world.slots() {
        write_slot(alloc, output, slot.name(), slot.confirmed())?;
    }
    write_subscribers(alloc, output, world.subscribers())?;
    output.flush()
}

/// What each start of a sender produced.
fn write_streams<L: LogName + SlotName, W: Write>(
    alloc: Global,
    output: &mut W,
    form: ReportForm,
    world: &World<L>,
) -> io::Result<()> {
    for start in world.starts() {
        match form {
            ReportForm::Digits => write_stream(
                alloc,
                output,
                start.connection(),
                start.produced(),
            )?,
            ReportForm::Text => write_rendered(
                alloc,
                output,
                start.connection(),
                start.produced(),
            )?,
        }
    }
    Ok(())
}

/// Those of the subscribers to which ever a byte was delivered.
fn write_subscribers<W: Write>(
    alloc: Global,
    output: &mut W,
    subscribers: &[Subscriber],
) -> io::Result<()> {
    for subscriber in subscribers {
        if subscriber.has_taken() {
            let count = subscriber.applied().len();
            write_subscriber(
                alloc,
                output,
                subscriber.connection(),
                subscriber.position(),
                count,
            )?;
        }
    }
    Ok(())
}
