//! A file beside an output that says something on a line.

use std::alloc::{AllocError, Global};
use std::fs::{File, read_to_string, remove_file};
use std::io;
use std::io::{ErrorKind, Write};

/// One line. Without its end it was half written, and says nothing.
#[derive(Drop)]
pub struct SideFile<'a> {
    rt: &'a HostRuntime,
    path: String,
}

impl<'a> SideFile<'a> {
    /// The one beside an output of this path whose name ends so. `AllocError` where memory for its path is refused.
    pub fn beside(
        rt: &'a HostRuntime,
        alloc: Global,
        path: &str,
        ending: &str,
    ) -> Result<Self, AllocError> {
        Ok(SideFile {
            rt,
            path: joined(alloc, path, ending)?,
        })
    }

    /// What it says, where it is there and whole. The system's error where it can't be read, or `OutOfMemory`.
    pub fn read(&self) -> io::Result<Option<String>> {
        match read_to_string(self.rt, self.path.as_str()) {
            Ok(text) => Ok(whole(self.rt.alloc(), text.as_str())?),
            Err(fault) if fault.kind() == ErrorKind::NotFound => Ok(None),
            Err(fault) => Err(fault),
        }
    }

    /// Has it say this, on the disk. The system's error where it can't be written, or `OutOfMemory`.
    pub fn write(&self, text: &str) -> io::Result<()> {
        let line = joined(self.rt.alloc(), text, "\n")?;
        let mut file: File = File::create(self.rt, self.path.as_str())?;
        file.write_all(line.as_bytes())?;
        file.sync_all()
    }

    /// Removes it, if it is there. The system's error where that fails.
    pub fn remove(&self) -> io::Result<()> {
        match remove_file(self.rt, self.path.as_str()) {
            Err(fault) if fault.kind() == ErrorKind::NotFound => Ok(()),
            removed => removed,
        }
    }
}

fn joined(alloc: Global, front: &str, end: &str) -> Result<String, AllocError> {
    let mut text = front.to_string(alloc)?;
    text.push_str(end)?;
    Ok(text)
}

/// The text of a whole line.
fn whole(alloc: Global, text: &str) -> Result<Option<String>, AllocError> {
    match text.strip_suffix("\n") {
        Some(told) => Ok(Some(told.to_string(alloc)?)),
        None => Ok(None),
    }
}
