//! Why the program did not run a schedule, and with which status it then ends.

use crate::simulation::SimFault;
use command_line::{Ending, WordsFault};
use configuration::ConfigFileFault;
use std::io;
use thiserror::Error;

#[derive(Debug, Drop, Error)]
pub enum Fault {
    #[error("{0}")]
    Words(#[from] WordsFault),
    #[error("{0}")]
    Config(#[from] ConfigFileFault),
    #[error("the schedule cannot be opened: {0}")]
    Open(io::Error),
    #[error("{0}")]
    Run(SimFault),
    #[error("standard output cannot be used: {0}")]
    Output(io::Error),
}

impl Ending for Fault {
    /// 2 where the arguments, the configuration or the schedule are refused, and 0 where help was asked for. 1 where a
    /// file, the output or memory failed.
    fn status(&self) -> u8 {
        match self {
            Fault::Config(fault) if fault.is_bad_configuration() => 2,
            Fault::Run(fault) if fault.is_bad_schedule() => 2,
            Fault::Config(_) | Fault::Run(_) | Fault::Open(_) | Fault::Output(_) => 1,
            Fault::Words(fault) => fault.status(),
        }
    }

    /// Prints the fault on the standard error, and a text that was asked for on the standard output.
    fn print<R: Print + Eprint>(&self, rt: &R) -> io::Result<()> {
        match self {
            Fault::Words(WordsFault::Usage(error)) => error.print(rt),
            fault => eprintln!(rt; "pubsim: {fault}"),
        }
    }
}
