//! Why lines are refused.

use crate::options::user_file::UserFault;
use hub::DiskFault;
use schedule::BadLine;
use std::fmt;
use thiserror::Error;
use txlog::SessionFault;

/// Why a line was refused, which has changed nothing, but for a disk that fails after it. It is told by its code and words.
#[derive(Clone, Copy, Debug)]
pub enum ScriptRefusal {
    /// It is no line.
    Line(BadLine),
    /// Its transaction isn't in progress.
    NoTransaction,
    /// It begins a transaction that is in progress.
    SecondBegin,
    Session(SessionFault),
    /// Its slot isn't there.
    NoSlot,
    Unmet(Unmet),
    /// No passwords are asked.
    NoPasswords,
    /// The file of passwords is of no use.
    Users(UserFault),
    /// The log's disk has failed: before it, and then it has changed nothing, or after it.
    Disk(DiskFault),
}

/// Why nobody waits any more for what a line awaits.
#[derive(Clone, Copy, Debug, Error)]
pub enum Unmet {
    #[error("it was awaited for so long, and did not come")]
    Late,
    #[error("no more connections come")]
    NoConnections,
    #[error("the server ends")]
    Ending,
}

impl fmt::Display for ScriptRefusal {
    fn fmt<W: fmt::Write>(&self, f: &mut fmt::Formatter<W>) -> fmt::Result {
        match self {
            ScriptRefusal::Line(bad) => write!(f, "V1 {bad}"),
            ScriptRefusal::NoTransaction => f.write_str(
                "V1 no transaction of this name is in progress",
            ),
            ScriptRefusal::SecondBegin => f.write_str(
                "V1 a transaction of this name is in progress",
            ),
            ScriptRefusal::Session(fault) => write!(f, "{} {fault}", fault.code()),
            ScriptRefusal::NoSlot => f.write_str("L1 there is no such slot"),
            ScriptRefusal::Unmet(why) => write!(f, "A1 {why}"),
            ScriptRefusal::NoPasswords => f.write_str("A2 no passwords are asked"),
            ScriptRefusal::Users(fault) => write!(f, "A2 {fault}"),
            ScriptRefusal::Disk(DiskFault::Failed) => write!(f, "D1 {}", DiskFault::Failed),
            ScriptRefusal::Disk(DiskFault::Unsynced) => write!(f, "D2 {}", DiskFault::Unsynced),
        }
    }
}
