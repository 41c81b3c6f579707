//! Sessions and a reader of one log, side by side.

use crate::fixtures::log_fixture::{commit_under_lock, has_commit_of, log_of};
use crate::fixtures::log_reading::{fetch_more, fetch_rest};
use crate::fixtures::work::{LogTask, do_work};
use shared_log::{LogName, LogReader, ReadFault};
use std::alloc::Global;
use std::process::Abort;
use std::sync::atomic::{AtomicBool, Ordering};
use std::sync::{Arc, Mutex, Wait};
use std::test::Fail;
use std::thread;
use std::thread::{Threads, join, map_indices};
use txlog::{Publisher, Receipt, SessionFault};
use wal::Record;

const SESSIONS: usize = 2;

/// The transactions of a session, each of one insert.
const TRANSACTIONS: usize = 50;

/// How often the reader fetches at most while the sessions run.
const FETCHES: usize = 1_000_000;

#[test]
fn two_sessions_beside_a_reader(rt: HostRuntime) -> Result<(), Fail> {
    do_work(&rt, rt.alloc(), LogTask::Load)
}

/// Each session has a thread, and so has one reader; the other has the whole log in the end.
pub fn run_load<L: LogName + Send + Sync, R: Threads + Wait + Abort + Sync>(
    rt: &R,
    alloc: Global,
    backend: &Mutex<Publisher<L>>,
    reader: &mut LogReader<L>,
    last: &mut LogReader<L>,
) -> Result<(), Fail> {
    let mut fetched = Vec::new(alloc);
    let receipts = beside(rt, alloc, backend, reader, &mut fetched)?;
    fetch_rest(alloc, reader, &mut fetched, receipts.as_slice())?;
    see_whole(
        rt,
        alloc,
        backend,
        last,
        fetched.as_slice(),
        receipts.as_slice(),
    )
}

/// The receipts of the sessions. What was read beside them is put after what was fetched.
fn beside<L: LogName + Send + Sync, R: Threads + Wait + Sync>(
    rt: &R,
    alloc: Global,
    backend: &Mutex<Publisher<L>>,
    reader: &mut LogReader<L>,
    fetched: &mut Vec<Arc<Record>>,
) -> Result<Vec<Receipt<L>>, Fail> {
    let is_done = AtomicBool::new(false);
    let (written, followed) = join(
        rt,
        || run_sessions(rt, alloc, backend, &is_done),
        || follow(alloc, reader, fetched, &is_done),
    );
    let receipts = written?;
    match followed {
        Ok(()) => Ok(receipts),
        Err(fault) => Err(Fail::from(fault)),
    }
}

fn run_sessions<L: LogName + Send + Sync, R: Threads + Wait + Sync>(
    rt: &R,
    alloc: Global,
    backend: &Mutex<Publisher<L>>,
    is_done: &AtomicBool,
) -> Result<Vec<Receipt<L>>, SessionFault> {
    let session = |number: usize| run_session(rt, alloc, backend, number);
    let sessions = map_indices(rt, alloc, SESSIONS, &session);
    is_done.store(true, Ordering::SeqCst);
    joined(alloc, sessions?)
}

fn joined<L: LogName>(
    alloc: Global,
    sessions: Vec<Result<Vec<Receipt<L>>, SessionFault>>,
) -> Result<Vec<Receipt<L>>, SessionFault> {
    let mut receipts = Vec::new(alloc);
    for session in sessions {
        receipts.append(&mut session?)?;
    }
    Ok(receipts)
}

/// Commits rows with ids of the session's own.
fn run_session<L: LogName, R: Wait>(
    rt: &R,
    alloc: Global,
    backend: &Mutex<Publisher<L>>,
    number: usize,
) -> Result<Vec<Receipt<L>>, SessionFault> {
    let mut receipts = Vec::new(alloc);
    for turn in 0..TRANSACTIONS {
        let id = (number % SESSIONS * TRANSACTIONS + turn) as i32;
        receipts.push(commit_under_lock(rt, alloc, backend, id, "a", 1)?)?;
    }
    Ok(receipts)
}

/// Fetches beside the sessions, now more records at once and now fewer.
fn follow<L: LogName>(
    alloc: Global,
    reader: &mut LogReader<L>,
    fetched: &mut Vec<Arc<Record>>,
    is_done: &AtomicBool,
) -> Result<(), ReadFault> {
    for turn in 0..FETCHES {
        if is_done.load(Ordering::SeqCst) {
            break;
        }
        fetch_more(alloc, reader, fetched, turn % 20)?;
        thread::yield_now();
    }
    Ok(())
}

/// The whole log has the Commit of each receipt at its place; a reader that has learnt of the receipts has fetched it too.
fn see_whole<L: LogName, R: Wait + Abort>(
    rt: &R,
    alloc: Global,
    backend: &Mutex<Publisher<L>>,
    last: &mut LogReader<L>,
    fetched: &[Arc<Record>],
    receipts: &[Receipt<L>],
) -> Result<(), Fail> {
    let log = log_of(rt, alloc, backend, last)?;
    let log = log.as_slice();
    assert!(rt; log.len() == 2 * SESSIONS * TRANSACTIONS);
    assert!(rt; have_commits(log, receipts) && have_same_ends(log, fetched));
    Ok(())
}

fn have_commits<L: LogName>(log: &[Arc<Record>], receipts: &[Receipt<L>]) -> bool {
    for receipt in receipts {
        if !has_commit_of(log, receipt) {
            return false;
        }
    }
    true
}

/// Whether as many records start and end where those of the log do.
fn have_same_ends(log: &[Arc<Record>], records: &[Arc<Record>]) -> bool {
    for (one, other) in log.iter().zip(records) {
        if one.start != other.start || one.end != other.end {
            return false;
        }
    }
    log.len() == records.len()
}
