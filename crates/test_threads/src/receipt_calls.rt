//! A receipt that is learnt of on another thread than the one that committed.

use crate::fixtures::log_fixture::{commit_elsewhere, has_commit_of};
use crate::fixtures::work::{LogTask, do_work};
use shared_log::{LogName, LogReader, ReadFault};
use std::alloc::Global;
use std::process::Abort;
use std::sync::{Arc, Mutex, Wait};
use std::test::Fail;
use std::thread::{Threads, join};
use txlog::{Publisher, Receipt};
use wal::Record;

#[test]
fn a_receipt_on_another_thread(rt: HostRuntime) -> Result<(), Fail> {
    do_work(&rt, rt.alloc(), LogTask::LearnElsewhere)
}

/// Commits on one thread, and learns of it on another.
pub fn learn_elsewhere<L: LogName + Send + Sync, R: Threads + Wait + Abort + Sync>(
    rt: &R,
    alloc: Global,
    backend: &Mutex<Publisher<L>>,
    reader: &mut LogReader<L>,
) -> Result<(), Fail> {
    let receipt = commit_elsewhere(rt, alloc, backend, (1, "ab", 7))?;
    let fetched = fetched_elsewhere(rt, alloc, reader, &receipt)?;
    assert!(rt; receipt.xid() == 700 && has_commit_of(fetched.as_slice(), &receipt));
    Ok(())
}

/// What the reader fetches on another thread, once it has learnt of the receipt.
fn fetched_elsewhere<L: LogName + Send + Sync, R: Threads + Sync>(
    rt: &R,
    alloc: Global,
    reader: &mut LogReader<L>,
    receipt: &Receipt<L>,
) -> Result<Vec<Arc<Record>>, ReadFault> {
    let (fetched, ()) = join(rt, || learnt(alloc, reader, receipt), || ());
    fetched
}

fn learnt<L: LogName>(
    alloc: Global,
    reader: &mut LogReader<L>,
    receipt: &Receipt<L>,
) -> Result<Vec<Arc<Record>>, ReadFault> {
    reader.learn(receipt.told());
    reader.fetch(alloc, usize::MAX)
}
