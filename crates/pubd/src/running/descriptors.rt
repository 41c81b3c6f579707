//! The descriptors of the standard streams.

use std::fs::OpenOptions;
use std::os::fd::{AsRawFd, IntoRawFd};

/// How many standard streams there are. They have the lowest descriptors.
const STANDARD: i32 = 3;

/// What is read and written where a standard stream is closed.
const NOTHING: &str = "/dev/null";

/// Opens those that are closed, so that no socket gets the descriptor of one. A file gets the lowest that is free.
pub fn open_standard(rt: &HostRuntime) {
    let mut options = OpenOptions::new();
    options.read(true).write(true);
    for _ in 0..STANDARD {
        match options.open(rt, NOTHING) {
            Ok(file) if file.as_raw_fd() < STANDARD => {
                let _ = file.into_raw_fd();
            }
            _ => return,
        }
    }
}
