//! A log that is written into a file, lost, and goes on by that file.

ghost use Rattle.std.specs.Prelude.{◌≡◌};

use crate::uses::items::configured;
use crate::uses::print_bytes;
use anyhow::{Error, Result, ensure};
use schedule::{Schedule, SessionAnswer, Sessions};
use segments::{LogKeeper, Segment, replay};
use shared_log::{LogName, LogReader};
use sqlite_disk::{Crash, Disk, Memory};
use std::alloc::Global;
use std::io::Print;
use std::marker::Brand;
use std::sync::Wait;
use txlog::{Publisher, PublisherParts};

/// The key of the file's digests.
const KEY: u64 = 7;

/// How many records the log may have.
const ROOM: usize = 1000;

/// Prints the file that is left of a log after these lives. In each the log goes on by the file, what was in progress is aborted, and
/// then come its lines: those of sessions; `write`, after which the file has all records so far; and `sync`. It ends by a crash, which
/// loses what isn't on the disk.
pub fn recover<R: Wait + Print>(rt: &R, alloc: Global, lives: &[String]) -> Result<()> {
    let mut file = Segment::create(alloc, Memory::new(alloc), KEY)?.end();
    for lines in lives {
        file = live(rt, alloc, file, lines)?;
    }
    file.crash();
    print_bytes(rt, alloc, file.bytes())
}

fn live<R: Wait>(rt: &R, alloc: Global, file: Memory, lines: &String) -> Result<Memory> {
    let opened = PublisherParts::new(alloc, configured(alloc)?, ROOM, 1)?;
    over_log::<Brand, R>(rt, alloc, opened, file, lines)
}

/// The log is named by the call. A publisher must be closed, so whatever may fail stands in a call that borrows it.
fn over_log<L: LogName, R: Wait>(
    rt: &R,
    alloc: Global,
    opened: PublisherParts,
    file: Memory,
    lines: &String,
) -> Result<Memory>
    requires { opened.history.seen.book ≡ L.book }
{
    let (mut publisher, mut readers) = Publisher::<L>::open(rt, opened)?;
    let left = match readers.pop() {
        Some(reader) => go_on(rt, alloc, &mut publisher, reader, file, lines.as_str()),
        None => Err(Error::msg("a log has a reader")),
    };
    publisher.close(rt);
    left
}

fn go_on<L: LogName, R: Wait>(
    rt: &R,
    alloc: Global,
    publisher: &mut Publisher<L>,
    mut reader: LogReader<L>,
    mut file: Memory,
    lines: &str,
) -> Result<Memory> {
    file.crash();
    file.sync()?;
    let (segment, entries) = Segment::open(alloc, file)?;
    replay(rt, alloc, publisher, entries.as_slice())?;
    let place = publisher.tell(&mut reader);
    let mut keeper = LogKeeper::resume(alloc, segment, reader, publisher.end(), place)?;
    publisher.abort_all(rt)?;
    let mut sessions = Sessions::new(alloc);
    let done = take_steps(rt, alloc, publisher, &mut keeper, &mut sessions, lines);
    sessions.leave_all(publisher);
    done?;
    let (segment, _) = keeper.end();
    Ok(segment.end())
}

fn take_steps<L: LogName, R: Wait>(
    rt: &R,
    alloc: Global,
    publisher: &mut Publisher<L>,
    keeper: &mut LogKeeper<Memory, L>,
    sessions: &mut Sessions,
    lines: &str,
) -> Result<()> {
    for line in lines.split('\n') {
        match line {
            "write" => {
                keeper.write_on(alloc, ROOM)?;
            }
            "sync" => keeper.sync()?,
            line => take_line(rt, alloc, publisher, sessions, line)?,
        }
    }
    Ok(())
}

fn take_line<L: LogName, R: Wait>(
    rt: &R,
    alloc: Global,
    publisher: &mut Publisher<L>,
    sessions: &mut Sessions,
    line: &str,
) -> Result<()> {
    let schedule = Schedule::parse(alloc, line)?;
    for event in schedule.events() {
        let (answer, _) = sessions.line(rt, publisher, event)?;
        ensure!(answer == SessionAnswer::Done, "a line is refused");
    }
    Ok(())
}
