//! A sender drained byte by byte.

use crate::fixtures::log_fixture::{CHUNKS, commit_under_lock, sender_of_p};
use crate::fixtures::work::{LogTask, do_work};
use crate::turn_calls::{FIRST_BLOCK, LENGTH};
use shared_log::{LogName, LogReader};
use std::alloc::{AllocError, Global};
use std::process::Abort;
use std::sync::{Mutex, Wait};
use std::test::Fail;
use txlog::Publisher;
use walsender::Sender;

/// So many bytes of the block are moved out while its only change still lies in the arena: all before its Commit's frame but one.
const WITH_CHANGE: usize = 196;

#[test]
fn bytes_one_by_one(rt: HostRuntime) -> Result<(), Fail> {
    do_work(&rt, rt.alloc(), LogTask::DrainByBytes)
}

/// A transaction with one insert, of which each byte is drained by a call of its own.
pub fn drain_by_bytes<L: LogName, R: Wait + Abort>(
    rt: &R,
    alloc: Global,
    backend: &Mutex<Publisher<L>>,
    reader: &mut LogReader<L>,
) -> Result<(), Fail> {
    commit_under_lock(rt, alloc, backend, 1, "ab", 7)?;
    feed_and_drain(rt, alloc, reader)
}

fn feed_and_drain<L: LogName, R: Abort>(
    rt: &R,
    alloc: Global,
    reader: &mut LogReader<L>,
) -> Result<(), Fail> {
    let mut sender = sender_of_p(alloc)?;
    feed(alloc, reader, &mut sender)?;
    drain_all(rt, alloc, &mut sender)
}

fn feed<L: LogName>(
    alloc: Global,
    reader: &mut LogReader<L>,
    sender: &mut Sender,
) -> Result<(), Fail> {
    let records = reader.fetch(alloc, 100)?;
    Ok(sender.feed(records.as_slice(), 9)?)
}

fn drain_all<R: Abort>(rt: &R, alloc: Global, sender: &mut Sender) -> Result<(), Fail> {
    let mut bytes = Vec::with_capacity(alloc, LENGTH)?;
    drain_each(rt, sender, &mut bytes)?;
    let text = hex::encode(alloc, bytes.as_slice())?;
    assert!(rt; text.as_str() == FIRST_BLOCK);
    assert!(rt; !sender.holds_bytes() && sender.free_chunks() == CHUNKS);
    Ok(())
}

/// All bytes of the block. Its chunk comes back between the end of its change's frame and that of its Commit's.
fn drain_each<R: Abort>(
    rt: &R,
    sender: &mut Sender,
    bytes: &mut Vec<u8>,
) -> Result<(), AllocError> {
    let mut byte = [0];
    for moved in 0..LENGTH {
        let lacks_one = sender.free_chunks() == CHUNKS - 1;
        let count = sender.drain(&mut byte);
        assert!(rt; count == 1 && (lacks_one || moved > WITH_CHANGE));
        bytes.push(byte[0])?;
    }
    Ok(())
}
