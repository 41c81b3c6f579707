//! A snapshot that is opened while a transaction is in progress, and read while others change what it has read and what not.

use crate::fixtures::log_fixture::{ITEM, commit_one, item};
use crate::fixtures::work::{LogTask, do_work};
use shared_log::LogName;
use std::alloc::{AllocError, Global};
use std::process::Abort;
use std::sync::{Mutex, MutexGuard, Wait};
use std::test::Fail;
use tables::{Row, Value};
use txlog::{Publisher, SessionFault, SnapshotFault, Tx};

/// How many rows are committed before.
const ROWS: i32 = 5;

#[test]
fn a_snapshot_beside_changes(rt: HostRuntime) -> Result<(), Fail> {
    do_work(&rt, rt.alloc(), LogTask::ReadSnapshot)
}

pub fn read_beside_changes<L: LogName, R: Wait + Abort>(
    rt: &R,
    alloc: Global,
    backend: &Mutex<Publisher<L>>,
) -> Result<(), Fail> {
    let mut guard = backend.lock(rt);
    let done = with_publisher(rt, alloc, &mut guard);
    MutexGuard::unlock(guard);
    done
}

fn with_publisher<L: LogName, R: Wait + Abort>(
    rt: &R,
    alloc: Global,
    publisher: &mut Publisher<L>,
) -> Result<(), Fail> {
    fill(rt, alloc, publisher)?;
    let id = open_beside(rt, alloc, publisher)?;
    read_thrice(rt, alloc, publisher, id)?;
    publisher.close_snapshot(id)?;
    assert!(rt; publisher.read_snapshot(id, 1).err() == Some(SnapshotFault::NotOpen));
    Ok(())
}

fn fill<L: LogName, R: Wait>(
    rt: &R,
    alloc: Global,
    publisher: &mut Publisher<L>,
) -> Result<(), SessionFault> {
    for id in 0..ROWS {
        commit_one(rt, publisher, item(alloc, id, "ab", 7)?)?;
    }
    Ok(())
}

/// Scans by pieces of one, two and three places.
fn read_thrice<L: LogName, R: Wait + Abort>(
    rt: &R,
    alloc: Global,
    publisher: &mut Publisher<L>,
    id: u64,
) -> Result<(), Fail> {
    for round in 1..4 {
        let rows = all_of(rt, alloc, publisher, id, round)?;
        assert!(rt; rows.len() == ROWS as usize);
        has_each(rt, alloc, rows.as_slice())?;
    }
    Ok(())
}

fn has_each<R: Abort>(rt: &R, alloc: Global, rows: &[Row]) -> Result<(), Fail> {
    for id in 0..ROWS {
        let wanted = item(alloc, id, "ab", 7)?;
        assert!(rt; rows.iter().filter(|row| **row == wanted).count() == 1);
    }
    Ok(())
}

/// A snapshot that is opened while a transaction has changed rows, which aborts then.
fn open_beside<L: LogName, R: Wait>(
    rt: &R,
    alloc: Global,
    publisher: &mut Publisher<L>,
) -> Result<u64, Fail> {
    let mut tx = publisher.begin()?;
    let changed = change_three(rt, alloc, publisher, &mut tx);
    let opened = publisher.open_snapshot();
    if let Err((tx, fault)) = publisher.abort(rt, tx) {
        publisher.leave(tx);
        return Err(Fail::from(fault));
    }
    changed?;
    Ok(opened?)
}

/// One row comes, one changes, and one goes.
fn change_three<L: LogName, R: Wait>(
    rt: &R,
    alloc: Global,
    publisher: &mut Publisher<L>,
    tx: &mut Tx,
) -> Result<(), SessionFault> {
    publisher.insert(rt, tx, ITEM, item(alloc, 6, "cd", 8)?)?;
    publisher.update(rt, tx, ITEM, &key(alloc, 2)?, item(alloc, 2, "cd", 8)?)?;
    publisher.delete(rt, tx, ITEM, &key(alloc, 3)?)
}

/// All rows that a scan gives by pieces of as many places as rounds have begun. After each piece a row comes that is not among
/// them.
fn all_of<L: LogName, R: Wait>(
    rt: &R,
    alloc: Global,
    publisher: &mut Publisher<L>,
    id: u64,
    round: u8,
) -> Result<Vec<Row>, Fail> {
    let mut rows = Vec::new(alloc);
    publisher.scan_snapshot(id, ITEM)?;
    for more in 0..ROWS {
        let piece = publisher.read_snapshot(id, round as usize)?;
        append(&mut rows, piece.rows)?;
        let late = (round as i32) * 100 + more;
        commit_one(rt, publisher, item(alloc, late, "ef", 9)?)?;
    }
    Ok(rows)
}

fn append(rows: &mut Vec<Row>, more: Vec<Row>) -> Result<(), AllocError> {
    for row in more {
        rows.push(row)?;
    }
    Ok(())
}

fn key(alloc: Global, id: i32) -> Result<Row, SessionFault> {
    Ok(Row::new(vec![in alloc; Value::Int4(id)]?))
}
