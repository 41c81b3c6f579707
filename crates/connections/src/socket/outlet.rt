//! The way from the writing thread of a connection to its socket, or whatever stands for one.

ghost use Rattle.std.specs.Prelude.{◌≡◌, true};
ghost use Rattle.std.specs.Result.{is_err};

use crate::connection_mailbox::ConnectionMailbox;
use crate::fault::ConnectionEnd;
use std::io;
use std::io::{ErrorKind, Write};
use std::sync::Wait;

/// Writes to a client as long as it takes what is written, or is listened to in its stream: then its reading thread knows whether
/// it is lost.
#[derive(Drop)]
pub struct Outlet<'h, S, R: Wait, W: Write> {
    pub rt: &'h R,
    pub mailbox: &'h ConnectionMailbox<S>,
    /// Where it goes. A write to it gives up once the client has taken nothing for as long as it may.
    pub to: W,
}

impl<'h, S, R: Wait, W: Write> Outlet<'h, S, R, W> {
    /// Whether what failed so is to be tried again.
    fn tries_again(&self, written: &io::Result<usize>) -> bool
        ensures { result ≡ true → is_err written.now ≡ true }
    {
        let Err(fault) = written else {
            return false;
        };
        match fault.kind() {
            ErrorKind::Interrupted => true,
            ErrorKind::WouldBlock => self.waits_on(),
            _ => false,
        }
    }

    /// Whether a client that takes nothing is waited for; else it is lost.
    fn waits_on(&self) -> bool {
        let waits_on = self.mailbox.is_heard(self.rt);
        if !waits_on {
            self.mailbox.end_early(self.rt, ConnectionEnd::Stalled);
        }
        waits_on
    }
}

impl<'h, S, R: Wait, W: Write> Write for Outlet<'h, S, R, W> {
    ghost contents = { λ o. W.contents o.to };

    fn write(&mut self, buf: &[u8]) -> io::Result<usize> {
        for _ in self.rt.forever() {
            let written = self.to.write(buf);
            if !self.tries_again(&written) {
                return written;
            }
        }
        Err(io::Error::from(ErrorKind::WouldBlock))
    }

    fn flush(&mut self) -> io::Result<()> {
        Ok(())
    }
}
