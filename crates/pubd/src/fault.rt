//! Why the program served nothing, or not to its end, and with which status it then ends.

use crate::options::command_fault::CommandFault;
use crate::options::password::PasswordFault;
use crate::options::user_file::UserFileFault;
use crate::running::data_folder::FolderFault;
use crate::running::inspecting::InspectionFault;
use crate::scripting::ScriptFileFault;
use command_line::{Ending, WordsFault};
use configuration::ConfigFileFault;
use hub::HubFault;
use std::alloc::AllocError;
use std::io;
use thiserror::Error;

#[derive(Debug, Drop, Error)]
pub enum Fault {
    #[error("{0}")]
    Command(#[from] CommandFault),
    #[error("{0}")]
    Config(#[from] ConfigFileFault),
    #[error("{0}")]
    Script(#[from] ScriptFileFault),
    #[error("{0}")]
    Password(#[from] PasswordFault),
    #[error("{0}")]
    Users(#[from] UserFileFault),
    #[error("{0}")]
    Folder(#[from] FolderFault),
    #[error("{0}")]
    Inspection(#[from] InspectionFault),
    #[error("{0}")]
    Hub(HubFault),
    #[error("no name can be chosen for the system: {0}")]
    System(io::Error),
    #[error("the address cannot be listened at: {0}")]
    Listen(io::Error),
    #[error("/proc/self/status, where SIGTERM is looked for, cannot be read: {0}")]
    Signals(io::Error),
    #[error("--end-on-sigterm wants SIGTERM blocked, as env --block-signal=TERM pubd .. does")]
    SignalNotBlocked,
    #[error("standard output cannot be used: {0}")]
    Output(io::Error),
    #[error("not all was done")]
    EndedEarly,
    #[error("out of memory")]
    Memory(#[from] AllocError),
}

impl Ending for Fault {
    /// 2 where the arguments, the configuration or a script are refused, and 0 where help was asked for. 1 where a file, a
    /// socket or memory failed.
    fn status(&self) -> u8 {
        match self {
            Fault::Command(fault) => fault.status(),
            Fault::Config(fault) if fault.is_bad_configuration() => 2,
            Fault::Script(fault) if fault.is_bad_script() => 2,
            Fault::Password(fault) if fault.is_bad_input() => 2,
            Fault::Folder(fault) if fault.is_bad_folder() => 2,
            Fault::Inspection(fault) if fault.is_bad_file() => 2,
            Fault::Hub(HubFault::LongName | HubFault::Recovery(_, _) | HubFault::Slots(_))
            | Fault::SignalNotBlocked => 2,
            Fault::Users(fault) if fault.is_bad_file() => 2,
            Fault::Config(_)
            | Fault::Script(_)
            | Fault::Password(_)
            | Fault::Users(_)
            | Fault::Folder(_)
            | Fault::Inspection(_)
            | Fault::Hub(HubFault::Memory)
            | Fault::System(_)
            | Fault::Listen(_)
            | Fault::Signals(_)
            | Fault::Output(_)
            | Fault::EndedEarly
            | Fault::Memory(_) => 1,
        }
    }

    /// Prints the fault on the standard error, and a text that was asked for on the standard output.
    fn print<R: Print + Eprint>(&self, rt: &R) -> io::Result<()> {
        match self {
            Fault::Command(CommandFault::Words(WordsFault::Usage(error))) => error.print(rt),
            // Each was told when it came.
            Fault::EndedEarly => Ok(()),
            fault => eprintln!(rt; "pubd: {fault}"),
        }
    }
}
