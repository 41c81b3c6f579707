//! The folder in which a log is kept.

use hub::{OtherLog, judge_identity};
use segments::{Entry, RecordFault, Segment, SegmentFault, read_identity, write_identity};
use sqlite_disk::Files;
use sqlite_std_file::{File, OpenError, Unknown, open};
use std::alloc::{AllocError, Global};
use std::{fs, io};
use thiserror::Error;

/// The name of the log's file in its folder.
pub(crate) const LOG_FILE: &str = "log";

/// Why a folder can't be gone on by.
#[derive(Debug, Drop, Error)]
pub enum FolderFault {
    #[error("the folder of --data cannot be made: {0}")]
    Folder(io::Error),
    #[error("the log's file in the folder of --data cannot be used: {0}")]
    Io(io::Error),
    #[error("the folder of --data is held by another process")]
    Held,
    #[error("the log's file in the folder of --data: {0}")]
    Segment(SegmentFault),
    #[error("the log's file in the folder of --data doesn't tell whose it is")]
    NoIdentity,
    /// A line of the configuration, and the one in its place.
    #[error("the folder of --data is of another log: it has `{1}` where the configuration has `{0}`")]
    Other(String, String),
    #[error("out of memory")]
    Memory(#[from] AllocError),
}

impl FolderFault {
    /// Whether the folder is refused, and not a file or memory.
    pub fn is_bad_folder(&self) -> bool {
        matches!(
            self,
            FolderFault::Held
                | FolderFault::NoIdentity
                | FolderFault::Other(_, _)
                | FolderFault::Segment(
                    SegmentFault::NoSegment | SegmentFault::Version | SegmentFault::Damaged(_)
                )
        )
    }
}

/// The log's file, which is locked, and its entries.
#[derive(Drop)]
pub(crate) struct DataFolder {
    pub segment: Segment<File>,
    pub entries: Vec<Entry>,
}

impl DataFolder {
    /// Opens the folder of the log that is known by this text. A folder that isn't there is made, and so is its file.
    pub fn open(rt: &HostRuntime, path: &str, identity: &str) -> Result<Self, FolderFault> {
        make_folder(rt, path).map_err(FolderFault::Folder)?;
        let (mut segment, entries) = segment_in(rt, path)?;
        match entries.first() {
            Some(first) => judge(rt.alloc(), first, identity)?,
            None => begin(rt.alloc(), &mut segment, identity).map_err(FolderFault::Segment)?,
        }
        Ok(DataFolder { segment, entries })
    }
}

/// Makes a folder that isn't there, and puts its name on the disk.
fn make_folder(rt: &HostRuntime, path: &str) -> io::Result<()> {
    fs::create_dir_all(rt, path)?;
    let above = format!(in rt.alloc(); "{path}/..")?;
    fs::File::open(rt, above.as_str())?.sync_all()
}

fn segment_in(rt: &HostRuntime, path: &str) -> Result<(Segment<File>, Vec<Entry>), FolderFault> {
    let alloc = rt.alloc();
    let file = format!(in alloc; "{path}/{LOG_FILE}")?;
    // What is made beside it stays empty.
    let Files { log: _, db } = match open(rt, file.as_str(), Unknown) {
        Ok(files) => files,
        Err(fault) => return Err(of_open(fault)),
    };
    match Segment::open_or_create(alloc, db) {
        Ok(opened) => Ok(opened),
        Err(fault) => Err(FolderFault::Segment(fault)),
    }
}

fn of_open(fault: OpenError) -> FolderFault {
    match fault {
        OpenError::Io(error) => FolderFault::Io(error),
        OpenError::OutOfMemory => FolderFault::Memory(AllocError),
        OpenError::Busy | OpenError::HotJournal => FolderFault::Held,
    }
}

/// A new file tells whose it is before all else.
fn begin(alloc: Global, segment: &mut Segment<File>, identity: &str) -> Result<(), SegmentFault> {
    write_identity(alloc, segment, identity)?;
    segment.sync()
}

/// Judges whose the file is, which its first entry tells.
fn judge(alloc: Global, first: &Entry, identity: &str) -> Result<(), FolderFault> {
    let theirs = match read_identity(alloc, first.body.as_slice()) {
        Ok(theirs) => theirs,
        Err(RecordFault::Memory) => return Err(FolderFault::Memory(AllocError)),
        Err(RecordFault::NoRecord) => return Err(FolderFault::NoIdentity),
    };
    match judge_identity(identity, theirs.as_str()) {
        Some(other) => Err(of_other(alloc, other)),
        None => Ok(()),
    }
}

fn of_other(alloc: Global, other: OtherLog<'_>) -> FolderFault {
    match (
        String::from_str(alloc, other.ours),
        String::from_str(alloc, other.theirs),
    ) {
        (Ok(ours), Ok(theirs)) => FolderFault::Other(ours, theirs),
        _ => FolderFault::Memory(AllocError),
    }
}
