//! When the server sent what is printed.

use std::alloc::{AllocError, Global};
use std::collections::VecDeque;
use std::io::Write;

/// What ends a line of JSON.
const END: &[u8] = b"}\n";

/// Of each Commit, and of each message outside of a transaction, that came and isn't printed: a position of its record, and what the
/// server's clock said as it sent it, in microseconds since 2000-01-01.
#[derive(Drop)]
pub(crate) struct SendTimes {
    times: VecDeque<(u64, i64)>,
}

impl SendTimes {
    pub(crate) fn new(alloc: Global) -> Self {
        SendTimes {
            times: VecDeque::new(alloc),
        }
    }

    /// What has this position was sent then. `AllocError` where memory to keep it is refused.
    pub(crate) fn note(&mut self, position: u64, clock: i64) -> Result<(), AllocError> {
        self.times.push_back((position, clock))?;
        Ok(())
    }

    /// When what has this position was sent. All that came before it is printed by now, or never will be.
    pub(crate) fn take(&mut self, position: u64) -> Option<i64> {
        for _ in 0..self.times.len() {
            match self.times.pop_front() {
                Some((at, clock)) if at == position => return Some(clock),
                _ => {}
            }
        }
        None
    }
}

/// Adds a line of JSON with one more member, which says when it was sent. `AllocError` where memory is refused.
pub(crate) fn push_sent(
    alloc: Global,
    line: &[u8],
    sent: i64,
    lines: &mut Vec<u8>,
) -> Result<(), AllocError> {
    let front = line.strip_suffix(END).unwrap_or(line);
    let mut member = Vec::new(alloc);
    if write!(member, ",\"sent\":{sent}").is_err() {
        return Err(AllocError);
    }
    lines.extend_from_slice(front)?;
    lines.extend_from_slice(member.as_slice())?;
    Ok(lines.extend_from_slice(END)?)
}
