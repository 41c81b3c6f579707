//! A file that keeps what is printed: where it ends the next run goes on.

use crate::fault::Fault;
use crate::side_file::SideFile;
use follower::{Form, Output, ResumePoint};
use std::alloc::Global;
use std::fs::{File, Metadata, OpenOptions, TryLockError, metadata};
use std::io;
use std::io::{BufRead, BufReader, ErrorKind, Write};
use std::os::unix::fs::MetadataExt;

/// What the names of files beside it end with: of the one that says of which system its transactions are, and of the one that says
/// which slot is being made for a copy.
const SYSTEM_ENDING: &str = ".system";

const COPY_ENDING: &str = ".copy";

/// An output that outlives its run, and that one run at a time has.
///
/// What was flushed is on the disk, under the name by which the next run looks for it. A run that is killed leaves whole
/// transactions and at most the beginning of one, which the next run cuts off.
#[derive(Drop)]
pub struct KeptOutput<'a> {
    rt: &'a HostRuntime,
    path: &'a str,
    file: File,
    system: SideFile<'a>,
    copy: SideFile<'a>,
}

impl<'a> KeptOutput<'a> {
    /// Opens the file, or makes one, and answers what it holds of earlier runs that printed in this form. `Journal` where it can't
    /// be used, `JournalInUse` where another run has it, `ForeignJournal` where it holds something else, or `Memory`.
    pub fn open(
        rt: &'a HostRuntime,
        alloc: Global,
        path: &'a str,
        form: Form,
    ) -> Result<(Self, ResumePoint), Fault> {
        let system = SideFile::beside(rt, alloc, path, SYSTEM_ENDING)?;
        let copy = SideFile::beside(rt, alloc, path, COPY_ENDING)?;
        let mut options = OpenOptions::new();
        options.read(true).append(true).create(true);
        let file: File = options.open(rt, path).map_err(Fault::Journal)?;
        let kept = taken(alloc, &file, form)?;
        let journal = KeptOutput {
            rt,
            path,
            file,
            system,
            copy,
        };
        Ok((journal, kept))
    }

    /// The system that it holds transactions of, where it holds some and this is known. `System` where the file beside it can't be
    /// read.
    pub fn system(&self, kept: &ResumePoint) -> Result<Option<String>, Fault> {
        if kept.transactions == 0 {
            return Ok(None);
        }
        self.system.read().map_err(Fault::System)
    }

    /// Whether a copy that made a slot of this name was begun into it, and may not have come to its end. `System` where the file
    /// beside it can't be read.
    pub fn has_left(&self, slot: &str) -> Result<bool, Fault> {
        match self.copy.read().map_err(Fault::System)? {
            Some(left) => Ok(left.as_str() == slot),
            None => Ok(false),
        }
    }

    /// Refused where its name names another file by now, or none: what is printed then is lost to the next run.
    fn look(&self) -> io::Result<()> {
        let own = self.file.metadata()?;
        match metadata(self.rt, self.path) {
            Ok(named) if is_same(&own, &named) => Ok(()),
            Ok(_) => Err(io::Error::other(REPLACED)),
            Err(fault) if fault.kind() == ErrorKind::NotFound => Err(io::Error::other(REMOVED)),
            Err(fault) => Err(fault),
        }
    }
}

const REMOVED: &str = "its file was removed";

const REPLACED: &str = "another file stands in the place of its own";

fn is_same(own: &Metadata, named: &Metadata) -> bool {
    own.dev() == named.dev() && own.ino() == named.ino()
}

/// Takes the file for this run, cuts off what was half written, and answers what it holds.
fn taken(alloc: Global, file: &File, form: Form) -> Result<ResumePoint, Fault> {
    file.try_lock().map_err(not_locked)?;
    let kept = read(alloc, file, form)?;
    cut_off(file, &kept)?;
    Ok(kept)
}

fn cut_off(file: &File, kept: &ResumePoint) -> Result<(), Fault> {
    if kept.is_foreign {
        return Err(Fault::ForeignJournal);
    }
    file.set_len(kept.length).map_err(Fault::Journal)
}

fn not_locked(fault: TryLockError) -> Fault {
    match fault {
        TryLockError::WouldBlock => Fault::JournalInUse,
        TryLockError::Error(fault) => Fault::Journal(fault),
    }
}

/// Reads it from its front to its end.
fn read(alloc: Global, file: &File, form: Form) -> Result<ResumePoint, Fault> {
    let mut lines = BufReader::new(alloc, file).map_err(Fault::Journal)?;
    let mut kept = ResumePoint::new();
    let taken = take_lines(alloc, form, &mut lines, &mut kept);
    drop(lines);
    taken?;
    Ok(kept)
}

fn take_lines<R: BufRead>(
    alloc: Global,
    form: Form,
    lines: &mut R,
    kept: &mut ResumePoint,
) -> Result<(), Fault> {
    let mut line = Vec::new(alloc);
    for _ in 0..u64::MAX {
        line.clear();
        if !take_line(alloc, form, lines, &mut line, kept)? {
            break;
        }
    }
    Ok(())
}

/// Takes the next line; false where there is none.
fn take_line<R: BufRead>(
    alloc: Global,
    form: Form,
    lines: &mut R,
    line: &mut Vec<u8>,
    kept: &mut ResumePoint,
) -> Result<bool, Fault> {
    let length = lines.read_until(b'\n', line).map_err(Fault::Journal)?;
    if length == 0 {
        return Ok(false);
    }
    kept.take(alloc, form, line.as_slice())?;
    Ok(true)
}

impl Write for KeptOutput<'_> {
    fn write(&mut self, bytes: &[u8]) -> io::Result<usize> {
        self.file.write(bytes)
    }

    fn flush(&mut self) -> io::Result<()> {
        self.file.sync_data()?;
        self.look()
    }
}

impl Output for KeptOutput<'_> {
    fn keep_system(&mut self, system: &str) -> io::Result<()> {
        self.system.write(system)
    }

    fn note_copy(&mut self, slot: Option<&str>) -> io::Result<()> {
        match slot {
            Some(slot) => self.copy.write(slot),
            None => self.copy.remove(),
        }
    }

    fn keep(&mut self) -> io::Result<()> {
        self.flush()
    }
}
