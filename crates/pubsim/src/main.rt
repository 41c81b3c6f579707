//! `pubsim CONFIG SCHEDULE` runs a schedule of events over a publisher in memory, and prints what was refused and what
//! each sender produced.
//!
//! `command.rt` reads the command line, `simulation.rt` runs the schedule over a `world::World`, and `rendering.rt` prints
//! streams as lines of text.
//!
//! Read `main.rt`, then `simulation.rt`. One contract is used: a simulation that fails has printed nothing, unless printing
//! itself failed (`simulate`: `silent`).
#![tactic(auto)]

mod command;
mod fault;
mod rendering;
mod simulation;

use command::{Words, words_of};
use command_line::{arguments_of, ended};
use configuration::{Config, config_at};
use fault::Fault;
use simulation::{ReportForm, simulate};
use std::io::{BufWriter, Read};
use std::process::ExitCode;
use std::sync::Wait;
use std::{fs, io};

fn main(rt: HostRuntime) -> ExitCode {
    ended(&rt, run(&rt, &rt))
}

/// The runtime has the files, and `waits` may wait for readers of the log.
fn run<R: Wait>(rt: &HostRuntime, waits: &R) -> Result<(), Fault> {
    let arguments = arguments_of(rt)?;
    run_called(rt, waits, arguments.as_slice())
}

fn run_called<R: Wait>(rt: &HostRuntime, waits: &R, arguments: &[String]) -> Result<(), Fault> {
    let words = words_of(rt.alloc(), arguments)?;
    let config = config_at(rt, words.config)?;
    run_configured(rt, waits, config, words)
}

fn run_configured<R: Wait>(
    rt: &HostRuntime,
    waits: &R,
    config: Config,
    words: Words,
) -> Result<(), Fault> {
    let mut schedule = fs::open(rt, words.schedule).map_err(Fault::Open)?;
    run_schedule(rt, waits, config, words.form, &mut schedule)
}

fn run_schedule<R: Wait, I: Read>(
    rt: &HostRuntime,
    waits: &R,
    config: Config,
    form: ReportForm,
    schedule: &mut I,
) -> Result<(), Fault> {
    let alloc = rt.alloc();
    let mut output = BufWriter::new(alloc, io::writer(rt)).map_err(Fault::Output)?;
    simulate(waits, alloc, config, form, schedule, &mut output).map_err(Fault::Run)
}
