//! A log of its own for a use.

ghost use Rattle.std.specs.Prelude.{◌≡◌, ◌≤◌};

use crate::uses::items::configured;
use crate::uses::sending::print_session;
use crate::uses::without_memory::call_of_log;
use anyhow::{Result, bail};
use shared_log::{LogName, LogReader};
use std::alloc::Global;
use std::io::Print;
use std::marker::Brand;
use std::sync::Wait;
use txlog::{Publisher, PublisherParts};

/// What is done with the log. One function opens and closes it for all.
#[derive(Drop)]
pub enum LogTask {
    /// A session writes it, and what a sender makes of it is printed.
    Print,
    /// What calls that take no memory work on is made, and they too, if it says so.
    Call(bool),
}

/// Works on a log that has room for so many records, which are 1,000 at most.
pub fn work_on_log<R: Wait + Print>(
    rt: &R,
    alloc: Global,
    room: usize,
    work: &LogTask,
) -> Result<()>
    requires some { 1 ≤ room }
    requires few { room ≤ 1000 }
{
    let opened = PublisherParts::new(alloc, configured(alloc)?, room, 1)?;
    over_log::<Brand, R>(rt, alloc, opened, work)
}

/// The log is named by the call. A publisher must be closed, so whatever may fail stands in calls that borrow it.
fn over_log<L: LogName, R: Wait + Print>(
    rt: &R,
    alloc: Global,
    opened: PublisherParts,
    work: &LogTask,
) -> Result<()>
    requires { opened.history.seen.book ≡ L.book }
{
    let (mut publisher, mut readers) = Publisher::<L>::open(rt, opened)?;
    let done = by_reader(rt, alloc, &mut publisher, readers.as_mut_slice(), work);
    publisher.close(rt);
    done
}

fn by_reader<L: LogName, R: Wait + Print>(
    rt: &R,
    alloc: Global,
    publisher: &mut Publisher<L>,
    readers: &mut [LogReader<L>],
    work: &LogTask,
) -> Result<()> {
    let [reader] = readers else {
        bail!("a log has a reader");
    };
    match work {
        LogTask::Print => print_session(rt, alloc, publisher, reader),
        LogTask::Call(is_called) => call_of_log(rt, alloc, publisher, reader, *is_called),
    }
}
