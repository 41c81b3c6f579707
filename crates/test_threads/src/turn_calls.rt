//! Turns from a log to a writer.

ghost use Rattle.std.specs.Prelude.{Some};

use crate::fixtures::log_fixture::{TIME, commit_elsewhere, commit_under_lock, sender_of_p};
use crate::fixtures::work::{LogTask, do_work};
use shared_log::{LogName, LogReader};
use std::alloc::{AllocError, Global};
use std::io;
use std::io::{ErrorKind, Write};
use std::process::Abort;
use std::sync::{Arc, Mutex, Wait};
use std::test::Fail;
use std::thread::Threads;
use txlog::Publisher;
use wal::{Body, Record};
use walsender::{Sender, TURN_RECORDS, TurnFault, turn};

/// What is sent of a transaction that inserts (1,'ab',7), commits with time 5 and is read with clock 9: the sample of
/// docs/PROTOCOL.md.
pub const FIRST_BLOCK: &str = "\
6400000032770000000001000030000000000100003000000000000000094200000000010000300000000000000005000002bc\
64000000587700000000010000000000000001000000000000000000000952000040007075626c6963006974656d00640003\
0169640000000017ffffffff006e616d650000000019ffffffff007174790000000014ffffffff\
64000000387700000000010000000000000001000000000000000000000949000040004e0003740000000131740000000261627400000001\
37\
6400000037770000000001000050000000000100005000000000000000094300000000000100003000000000010000500000000000000005";

/// The same of the next one, which inserts (2,'b',1). Its table was told before.
const SECOND_BLOCK: &str = "\
6400000032770000000001000080000000000100008000000000000000094200000000010000800000000000000005000002bd\
64000000377700000000010000500000000001000050000000000000000949000040004e00037400000001327400000001627400000001\
31\
64000000377700000000010000a000000000010000a000000000000000094300000000000100008000000000010000a00000000000000005";

/// The length of the first block.
pub const LENGTH: usize = 253;

/// A transaction with one insert: its row, where its two records start and end, and what is sent of it.
struct Sample {
    row: (i32, &'static str, i64),
    ends: [(u64, u64); 2],
    block: &'static str,
}

const FIRST: Sample = Sample {
    row: (1, "ab", 7),
    ends: [(0x100_0000, 0x100_0030), (0x100_0030, 0x100_0050)],
    block: FIRST_BLOCK,
};

const SECOND: Sample = Sample {
    row: (2, "b", 1),
    ends: [(0x100_0050, 0x100_0080), (0x100_0080, 0x100_00A0)],
    block: SECOND_BLOCK,
};

#[test]
fn readers_that_were_told_nothing(rt: HostRuntime) -> Result<(), Fail> {
    do_work(&rt, rt.alloc(), LogTask::LookTwice)
}

/// A transaction on one thread, and what this one gets once the other is joined; and the same once more.
pub fn look_twice<L: LogName + Send + Sync, R: Threads + Wait + Abort + Sync>(
    rt: &R,
    alloc: Global,
    backend: &Mutex<Publisher<L>>,
    plain: &mut LogReader<L>,
    fed: &mut LogReader<L>,
) -> Result<(), Fail> {
    let mut sender = sender_of_p(alloc)?;
    look_at_both(rt, alloc, backend, plain, fed, &mut sender)
}

fn look_at_both<L: LogName + Send + Sync, R: Threads + Wait + Abort + Sync>(
    rt: &R,
    alloc: Global,
    backend: &Mutex<Publisher<L>>,
    plain: &mut LogReader<L>,
    fed: &mut LogReader<L>,
    sender: &mut Sender,
) -> Result<(), Fail> {
    for sample in &[FIRST, SECOND] {
        commit_elsewhere(rt, alloc, backend, sample.row)?;
        see_records(rt, alloc, plain, sample)?;
        see_block(rt, alloc, fed, sender, sample)?;
    }
    Ok(())
}

/// A reader gets the records of the sample, with a Commit as the last.
fn see_records<L: LogName, R: Abort>(
    rt: &R,
    alloc: Global,
    reader: &mut LogReader<L>,
    sample: &Sample,
) -> Result<(), Fail> {
    let records = reader.fetch(alloc, 100)?;
    assert!(rt; are_of(records.as_slice(), sample));
    Ok(())
}

fn are_of(records: &[Arc<Record>], sample: &Sample) -> bool {
    match records {
        [change, commit] => {
            let first = sample.ends[0];
            let second = sample.ends[1];
            change.start == first.0
                && change.end == first.1
                && commit.start == second.0
                && commit.end == second.1
                && matches!(commit.body, Body::Commit(_, TIME))
        }
        _ => false,
    }
}

/// A sender that is fed from a reader sends the block of the sample.
fn see_block<L: LogName, R: Abort>(
    rt: &R,
    alloc: Global,
    reader: &mut LogReader<L>,
    sender: &mut Sender,
    sample: &Sample,
) -> Result<(), Fail> {
    let mut bytes = Vec::new(alloc);
    let turned = turn(alloc, sender, reader, TURN_RECORDS, 9, &mut bytes)?;
    let text = hex::encode(alloc, bytes.as_slice())?;
    assert!(rt; turned == 2 && text.as_str() == sample.block);
    Ok(())
}

/// Takes so many bytes, some at once, and then fails, or takes none.
#[derive(Drop)]
struct Narrow {
    left: usize,
    at_once: usize,
    fails: bool,
    taken: Vec<u8>,
}

impl Write for Narrow {
    ghost contents = { λ w. Some w.taken.items };

    fn write(&mut self, buf: &[u8]) -> io::Result<usize> {
        if self.left == 0 && self.fails {
            return Err(io::Error::from(ErrorKind::Other));
        }
        let count = buf.len().min(self.left).min(self.at_once);
        self.taken.extend_from_slice(&buf[..count])?;
        self.left -= count;
        Ok(count)
    }

    fn flush(&mut self) -> io::Result<()> {
        Ok(())
    }
}

#[test]
fn writers_that_fail(rt: HostRuntime) -> Result<(), Fail> {
    do_work(&rt, rt.alloc(), LogTask::TurnNarrowly)
}

/// Turns to writers that take no byte of the first block, one, and so on, up to 100 at once or one by one.
pub fn turn_narrowly<L: LogName, R: Wait + Abort>(
    rt: &R,
    alloc: Global,
    backend: &Mutex<Publisher<L>>,
    reader: &mut LogReader<L>,
) -> Result<(), Fail> {
    commit_under_lock(rt, alloc, backend, 1, "ab", 7)?;
    turn_to_each(rt, alloc, reader)
}

fn turn_to_each<L: LogName, R: Abort>(
    rt: &R,
    alloc: Global,
    reader: &mut LogReader<L>,
) -> Result<(), Fail> {
    for left in 0..LENGTH + 1 {
        turn_by(rt, alloc, reader, left, 100, true)?;
        turn_by(rt, alloc, reader, left, 1, false)?;
    }
    Ok(())
}

fn turn_by<L: LogName, R: Abort>(
    rt: &R,
    alloc: Global,
    reader: &mut LogReader<L>,
    left: usize,
    at_once: usize,
    fails: bool,
) -> Result<(), Fail> {
    let mut sender = sender_of_p(alloc)?;
    let mut out = Narrow {
        left,
        at_once,
        fails,
        taken: Vec::new(alloc),
    };
    turn_into(rt, alloc, &mut sender, reader, &mut out)
}

fn turn_into<L: LogName, R: Abort>(
    rt: &R,
    alloc: Global,
    sender: &mut Sender,
    reader: &mut LogReader<L>,
    out: &mut Narrow,
) -> Result<(), Fail> {
    let left = out.left;
    reader.seek(0);
    let is_due = is_due(turn(alloc, sender, reader, TURN_RECORDS, 9, out), left);
    let is_front = is_front(alloc, out.taken.as_slice(), left)?;
    assert!(rt; is_due && is_front);
    Ok(())
}

/// A writer that takes fewer bytes than the block has makes the turn fail.
fn is_due(turned: Result<usize, TurnFault>, left: usize) -> bool {
    match turned {
        Ok(count) => count == 2 && left == LENGTH,
        Err(TurnFault::Write(_)) => left < LENGTH,
        Err(_) => false,
    }
}

/// Whether the writer took what it could, from the front of the block.
fn is_front(alloc: Global, taken: &[u8], left: usize) -> Result<bool, AllocError> {
    let text = hex::encode(alloc, taken)?;
    Ok(taken.len() == left && FIRST_BLOCK.starts_with(text.as_str()))
}
