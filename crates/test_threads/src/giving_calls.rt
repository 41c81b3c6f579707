//! A log that has more records than may lie in memory at once, since they are given back.

use crate::fixtures::log_fixture::commit_under_lock;
use crate::fixtures::work::{LogTask, do_work};
use shared_log::{LogName, LogReader, ReadFault};
use std::alloc::Global;
use std::process::Abort;
use std::sync::{Mutex, MutexGuard, Wait};
use std::test::Fail;
use txlog::{Publisher, Receipt, SessionFault};
use wal::FIRST_POSITION;

/// Of two records each, so twice as many records as there is room for.
const TRANSACTIONS: i32 = 4_000;

#[test]
fn more_records_than_room(rt: HostRuntime) -> Result<(), Fail> {
    do_work(&rt, rt.alloc(), LogTask::GiveBack)
}

/// All that stands before the last transaction is given back. A reader that was left at the front is told so, and so is a start there;
/// one at the last Commit begins at the transaction's first record.
pub fn give_all_back<L: LogName, R: Wait + Abort>(
    rt: &R,
    alloc: Global,
    backend: &Mutex<Publisher<L>>,
    reader: &mut LogReader<L>,
) -> Result<(), Fail> {
    let last = commit_many(rt, alloc, backend)?;
    reader.learn(last.told());
    assert!(rt; matches!(reader.fetch(alloc, 1), Err(ReadFault::Removed)));
    assert!(rt; reader.resume(FIRST_POSITION, usize::MAX) == Err(ReadFault::Removed));
    let position = reader.resume(last.start(), usize::MAX)?;
    assert!(rt; position < last.start());
    let records = reader.fetch(alloc, 100)?;
    assert!(rt; records.len() == 2 && last.place().checked_add(1) == Some(reader.place()));
    Ok(())
}

/// The receipt of the last of many transactions, after each of which all may be given back.
fn commit_many<L: LogName, R: Wait>(
    rt: &R,
    alloc: Global,
    backend: &Mutex<Publisher<L>>,
) -> Result<Receipt<L>, SessionFault> {
    let mut last = commit_under_lock(rt, alloc, backend, 0, "ab", 7)?;
    for id in 1..TRANSACTIONS {
        let mut guard = backend.lock(rt);
        guard.give_back(usize::MAX);
        MutexGuard::unlock(guard);
        last = commit_under_lock(rt, alloc, backend, id, "ab", 7)?;
    }
    Ok(last)
}
