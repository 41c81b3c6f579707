//! Why the words of a command line are of no use.

use clap::error::ErrorKind;
use std::alloc::AllocError;
use std::io;
use thiserror::Error;

/// Why the words of a command line are of no use, or that they ask for help.
#[derive(Debug, Drop, Error)]
pub enum WordsFault {
    #[error("the arguments cannot be read: {0}")]
    Arguments(io::Error),
    #[error("{0}")]
    Usage(#[from] clap::Error),
    #[error("ADDR is an address, or localhost, and a port, as in 127.0.0.1:5433")]
    Address,
    #[error("out of memory")]
    Memory(#[from(alloc)] AllocError),
}

impl WordsFault {
    /// 2 where they are refused, 0 where they ask for help, and 1 where memory failed.
    pub fn status(&self) -> u8 {
        match self {
            WordsFault::Arguments(error) => match error.kind() {
                io::ErrorKind::OutOfMemory => 1,
                _ => 2,
            },
            WordsFault::Usage(error) => match error.kind() {
                ErrorKind::DisplayHelp | ErrorKind::DisplayVersion => 0,
                ErrorKind::OutOfMemory => 1,
                _ => 2,
            },
            WordsFault::Address => 2,
            WordsFault::Memory(_) => 1,
        }
    }
}
