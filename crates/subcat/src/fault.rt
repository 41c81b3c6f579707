//! Why the program did not follow a slot, and with which status it then ends.

use crate::password::PasswordFault;
use command_line::{Ending, WordsFault};
use follower::FollowFault;
use std::alloc::AllocError;
use std::io;
use thiserror::Error;

#[derive(Debug, Drop, Error)]
pub enum Fault {
    #[error("{0}")]
    Words(#[from] WordsFault),
    #[error("POSITION is two hexadecimal numbers joined by a slash, as in 0/1000030")]
    Position,
    #[error("with --copy, POSITION is 0/0: the stream begins where the copy ends")]
    CopyPosition,
    #[error("COUNT is a number from 0 to 4294967295")]
    Count,
    #[error("standard output cannot be used: {0}")]
    Output(io::Error),
    #[error("the output file cannot be used: {0}")]
    Journal(io::Error),
    #[error("the output file is in use by another run")]
    JournalInUse,
    #[error("the output file holds something else than what subcat prints")]
    ForeignJournal,
    #[error("a file beside the output, .system or .copy, cannot be used: {0}")]
    System(io::Error),
    #[error("no connection: {0}")]
    Connect(io::Error),
    #[error("{0}")]
    Follow(FollowFault),
    #[error("{0}")]
    Password(#[from] PasswordFault),
    #[error("out of memory")]
    Memory(#[from(alloc)] AllocError),
}

impl Ending for Fault {
    /// 2 where the arguments are refused, and 0 where help was asked for. 1 where the connection, the server, the output or
    /// memory failed.
    fn status(&self) -> u8 {
        match self {
            Fault::Position | Fault::CopyPosition | Fault::Count => 2,
            Fault::Password(fault) if fault.is_bad_input() => 2,
            Fault::Output(_)
            | Fault::Journal(_)
            | Fault::JournalInUse
            | Fault::ForeignJournal
            | Fault::System(_)
            | Fault::Connect(_)
            | Fault::Follow(_)
            | Fault::Password(_)
            | Fault::Memory(_) => 1,
            Fault::Words(fault) => fault.status(),
        }
    }

    /// Prints the fault on the standard error, and a text that was asked for on the standard output. What a server said
    /// stands by itself, as `server: CODE text`.
    fn print<R: Print + Eprint>(&self, rt: &R) -> io::Result<()> {
        match self {
            Fault::Words(WordsFault::Usage(error)) => error.print(rt),
            Fault::Follow(FollowFault::Server(said)) => eprintln!(rt; "server: {said}"),
            fault => eprintln!(rt; "subcat: {fault}"),
        }
    }
}
