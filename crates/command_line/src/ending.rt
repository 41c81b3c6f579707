//! How a program ends: its fault is printed, and tells the status.

use std::io;
use std::process::ExitCode;

/// Why a program did not do what it was asked for.
pub trait Ending {
    /// The status with which the program then ends.
    fn status(&self) -> u8;

    /// Prints the fault on the standard error, and a text that was asked for on the standard output.
    fn print<R: Print + Eprint>(&self, rt: &R) -> io::Result<()>;
}

/// How a program ends that has done this.
pub fn ended<R: Print + Eprint, F: Ending + Drop>(rt: &R, done: Result<(), F>) -> ExitCode {
    match done {
        Ok(()) => ExitCode::SUCCESS,
        Err(fault) => {
            let _ = fault.print(rt);
            ExitCode::from(fault.status())
        }
    }
}
