//! The faults of a backend.

use std::error::Error;
use std::fmt;

/// Why a backend refuses what a command asks.
#[derive(Clone, Copy, Debug, PartialEq, Eq)]
pub enum BackendFault {
    SlotMissing,
    SlotInUse,
    SlotExists,
    NoSlotPlace,
    UnknownPublication,
    ListConflict,
    NoReader,
    /// A stream would start ahead of all that its slot has confirmed and sent.
    StartAhead(StartAhead),
    /// The slot held more of the log than it may, and was given up.
    SlotLost,
    /// The slot was made by another user.
    NotOwner,
    /// The user may not follow a publication.
    NotGranted,
    /// Tables are not copied from here.
    NoCopies,
    /// No table of this name is known.
    UnknownTable,
    /// A table has no column of this name.
    UnknownColumn,
    /// The text is no row filter of the table.
    UnknownFilter,
    /// The log is kept on a disk that takes nothing more.
    NotKept,
    Memory,
}

/// Where a stream would start, and up to where its slot has confirmed or sent anything.
#[derive(Clone, Copy, Debug, PartialEq, Eq)]
pub struct StartAhead {
    pub start: u64,
    pub reached: u64,
}

impl fmt::Display for BackendFault {
    fn fmt<W: fmt::Write>(&self, f: &mut fmt::Formatter<W>) -> fmt::Result {
        f.write_str(match self {
            BackendFault::SlotMissing => "L1: the slot does not exist",
            BackendFault::SlotInUse => "L2: the slot is in use",
            BackendFault::SlotExists => "L3: the slot already exists",
            BackendFault::NoSlotPlace => "L4: no slot place is left",
            BackendFault::UnknownPublication => "P1: the publication does not exist",
            BackendFault::ListConflict => "P2: different column lists",
            BackendFault::NoReader => "L6: no reader is free",
            BackendFault::StartAhead(_) => "L7: the start is ahead of all that the slot has sent",
            BackendFault::SlotLost => "L8: the slot held more of the log than it may",
            BackendFault::NotOwner => "A3: the slot is another user's",
            BackendFault::NotGranted => "A4: the user may not follow a publication",
            BackendFault::NoCopies => "L13: tables are not copied",
            BackendFault::UnknownTable => "L10: the table does not exist",
            BackendFault::UnknownColumn => "L11: the column does not exist",
            BackendFault::UnknownFilter => "L12: the text is no row filter of the table",
            BackendFault::NotKept => "L14: the disk takes no more of the log",
            BackendFault::Memory => "out of memory",
        })
    }
}

impl Error for BackendFault {}
