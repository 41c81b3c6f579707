//! The way from the writing thread of a stream to its client.

use crate::slot::slot_monitor::SlotMonitor;
use crate::socket::outlet::Outlet;
use std::io;
use std::io::{ErrorKind, Write};
use std::sync::Wait;

/// Counts what is sent, and lets nothing through after the byte at which the connection is to be cut.
#[derive(Drop)]
pub struct MeteredWriter<'h, S, R: Wait, W: Write> {
    pub rt: &'h R,
    pub monitor: &'h SlotMonitor,
    pub outlet: Outlet<'h, S, R, W>,
}

impl<'h, S, R: Wait, W: Write> Write for MeteredWriter<'h, S, R, W> {
    ghost contents = { λ t. W.contents t.outlet.to };

    fn write(&mut self, buf: &[u8]) -> io::Result<usize> {
        let passing = self.monitor.passing(self.rt, buf.len());
        if passing == 0 && !buf.is_empty() && self.monitor.take_cut(self.rt) {
            return Err(io::Error::from(ErrorKind::ConnectionAborted));
        }
        let count = self.outlet.write(&buf[..passing])?;
        self.monitor.pass(self.rt, &buf[..count]);
        Ok(count)
    }

    fn flush(&mut self) -> io::Result<()> {
        Ok(())
    }
}
