//! The standard output as what transactions are printed into.

use follower::Output;
use std::io::{ErrorKind, Printer, Write};
use std::time::Duration;
use std::{io, thread};

/// For how many milliseconds an output that takes nothing for now is left alone.
const PAUSE: u64 = 10;

/// The standard output, which keeps nothing for a later run. One that was opened so that no write waits is written again and again
/// until it takes all.
#[derive(Drop)]
pub struct Printout<'a> {
    rt: &'a HostRuntime,
    printer: Printer<'a, HostRuntime>,
}

impl<'a> Printout<'a> {
    pub fn new(rt: &'a HostRuntime) -> Self {
        Printout {
            rt,
            printer: io::writer(rt),
        }
    }
}

impl Write for Printout<'_> {
    fn write(&mut self, bytes: &[u8]) -> io::Result<usize> {
        for _ in 0..u64::MAX {
            match self.printer.write(bytes) {
                Err(fault) if fault.kind() == ErrorKind::WouldBlock => {
                    thread::sleep(self.rt, Duration::from_millis(PAUSE));
                }
                written => return written,
            }
        }
        Err(io::Error::other("it takes nothing"))
    }

    fn flush(&mut self) -> io::Result<()> {
        self.printer.flush()
    }
}

impl Output for Printout<'_> {
    fn keep_system(&mut self, _system: &str) -> io::Result<()> {
        Ok(())
    }

    fn note_copy(&mut self, _slot: Option<&str>) -> io::Result<()> {
        Ok(())
    }

    fn keep(&mut self) -> io::Result<()> {
        self.flush()
    }
}
