//! Why a script is not read, or ended.

use schedule::BadLine;
use std::alloc::AllocError;
use std::io;
use thiserror::Error;

/// Why a script ended before its last line.
#[derive(Debug, Drop, Error)]
pub enum ScriptFault {
    #[error("V2: out of memory")]
    Memory,
    #[error("no more lines can be read: {0}")]
    Lines(io::ErrorKind),
    #[error("answers cannot be written: {0}")]
    Answers(io::Error),
}

impl From<AllocError> for ScriptFault {
    fn from(_e: AllocError) -> ScriptFault {
        ScriptFault::Memory
    }
}

/// Why the file of a script gave no script.
#[derive(Debug, Drop, Error)]
pub enum ScriptFileFault {
    #[error("{0} cannot be read: {1}")]
    Read(String, io::Error),
    #[error("{0}: line {1} is no line of a script: {2}")]
    BadLine(String, usize, BadLine),
    #[error("out of memory")]
    Memory(#[from(alloc)] AllocError),
}

impl ScriptFileFault {
    /// Whether the script is at fault: one of its lines, or that it is no text.
    pub fn is_bad_script(&self) -> bool {
        match self {
            ScriptFileFault::Read(_, error) => error.kind() == io::ErrorKind::InvalidData,
            ScriptFileFault::BadLine(_, _, _) => true,
            ScriptFileFault::Memory(_) => false,
        }
    }
}
