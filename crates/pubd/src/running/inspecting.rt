//! `--inspect FOLDER`: what a log's file has, as lines.

use crate::running::data_folder::LOG_FILE;
use crate::running::told_change::{ToldChange, ToldMessage};
use segments::{
    Content, Entry, KeptSlot, RecordBody, RecordFault, SegmentFault, SlotEvent, is_beside,
    read_content, read_identity, read_record, read_slot_event,
};
use std::alloc::{AllocError, Global};
use std::{fs, io};
use thiserror::Error;

/// Why a folder isn't told.
#[derive(Debug, Drop, Error)]
pub enum InspectionFault {
    #[error("the log's file in the folder of --inspect cannot be read: {0}")]
    Input(io::Error),
    #[error("the log's file in the folder of --inspect: {0}")]
    Segment(SegmentFault),
    #[error("entry {0} in the folder of --inspect tells nothing")]
    Entry(usize),
    #[error("standard output cannot be used: {0}")]
    Output(io::Error),
    #[error("out of memory")]
    Memory(#[from] AllocError),
}

impl InspectionFault {
    /// Whether the file is refused.
    pub fn is_bad_file(&self) -> bool {
        matches!(
            self,
            InspectionFault::Entry(_)
                | InspectionFault::Segment(
                    SegmentFault::NoSegment | SegmentFault::Version | SegmentFault::Damaged(_)
                )
        )
    }
}

/// Prints a line for each entry of a log's file, with its number, and then where the last one ends. A server may hold the folder.
pub fn inspect(rt: &HostRuntime, path: &str) -> Result<(), InspectionFault> {
    let alloc = rt.alloc();
    let file = format!(in alloc; "{path}/{LOG_FILE}")?;
    let bytes = fs::read(rt, file.as_str()).map_err(InspectionFault::Input)?;
    let content = match read_content(alloc, bytes.as_slice()) {
        Ok(content) => content,
        Err(fault) => return Err(InspectionFault::Segment(fault)),
    };
    let Content {
        key: _,
        entries,
        end,
    } = content;
    print_entries(rt, alloc, entries.as_slice())?;
    println!(rt; "end {end} of {}", bytes.len()).map_err(InspectionFault::Output)
}

fn print_entries(
    rt: &HostRuntime,
    alloc: Global,
    entries: &[Entry],
) -> Result<(), InspectionFault> {
    let mut number = 0;
    for entry in entries {
        print_entry(rt, alloc, number, entry.body.as_slice())?;
        number = number.saturating_add(1);
    }
    Ok(())
}

fn print_entry(
    rt: &HostRuntime,
    alloc: Global,
    number: usize,
    bytes: &[u8],
) -> Result<(), InspectionFault> {
    if !is_beside(bytes) {
        return match read_record(alloc, bytes) {
            Ok(body) => print_record(rt, number, &body).map_err(InspectionFault::Output),
            Err(fault) => Err(of_fault(number, fault)),
        };
    }
    match read_slot_event(alloc, bytes) {
        Ok(event) => print_event(rt, number, &event).map_err(InspectionFault::Output),
        Err(_) => print_identity(rt, alloc, number, bytes),
    }
}

fn print_identity(
    rt: &HostRuntime,
    alloc: Global,
    number: usize,
    bytes: &[u8],
) -> Result<(), InspectionFault> {
    match read_identity(alloc, bytes) {
        Ok(identity) => {
            println!(rt; "{number} log {:?}", identity.as_str()).map_err(InspectionFault::Output)
        }
        Err(fault) => Err(of_fault(number, fault)),
    }
}

fn of_fault(number: usize, fault: RecordFault) -> InspectionFault {
    match fault {
        RecordFault::Memory => InspectionFault::Memory(AllocError),
        RecordFault::NoRecord => InspectionFault::Entry(number),
    }
}

fn print_record(rt: &HostRuntime, number: usize, body: &RecordBody) -> io::Result<()> {
    match body {
        RecordBody::Assign(xid, parent) => println!(rt; "{number} assign {xid} under {parent}"),
        RecordBody::Change(xid, change) => println!(rt;
            "{number} change {xid} {}",
            ToldChange { change }
        ),
        RecordBody::AbortSub(xid) => println!(rt; "{number} rollback {xid}"),
        RecordBody::Abort(xid) => println!(rt; "{number} abort {xid}"),
        RecordBody::Commit(xid, time) => println!(rt; "{number} commit {xid} at {time}"),
        RecordBody::Note(message) => println!(rt; "{number} note {}", ToldMessage { message }),
    }
}

fn print_event(rt: &HostRuntime, number: usize, event: &SlotEvent) -> io::Result<()> {
    match event {
        SlotEvent::Stands(slot) => print_slot(rt, number, slot),
        SlotEvent::Dropped(name) => println!(rt; "{number} slot {} dropped", name.as_str()),
    }
}

fn print_slot(rt: &HostRuntime, number: usize, slot: &KeptSlot) -> io::Result<()> {
    let name = slot.name.as_str();
    let lost = if slot.is_lost { " lost" } else { "" };
    let owner = match &slot.owner {
        Some(owner) => owner.as_str(),
        None => "",
    };
    let (high, low) = (slot.confirmed >> 32, slot.confirmed & 0xFFFF_FFFF);
    println!(rt; "{number} slot {name} confirmed {high:X}/{low:X} owner {owner:?}{lost}")
}
