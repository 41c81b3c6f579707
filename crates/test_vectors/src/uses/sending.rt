//! The shortest use of the crates: a session writes the log, and a sender makes the bytes that a subscriber gets of it.

use crate::uses::items::{ITEM, item, selection_of_p};
use crate::uses::own_log::{LogTask, work_on_log};
use crate::uses::print_bytes;
use anyhow::Result;
use bytes::BytesMut;
use catalog::Catalog;
use chgarena::Arena;
use shared_log::{LogName, LogReader};
use std::alloc::Global;
use std::io::Print;
use std::sync::Wait;
use txlog::{Publisher, SessionFault, Tx};
use wal::FIRST_POSITION;
use walsender::Sender;

/// The chunks of the arena in which the sender keeps changes.
const CHUNKS: usize = 64;

/// Prints what a subscriber gets of a publisher of the configured table, whose log has room for 1,000 records.
pub fn print_stream<R: Wait + Print>(rt: &R, alloc: Global) -> Result<()> {
    work_on_log(rt, alloc, 1000, &LogTask::Print)
}

pub fn print_session<L: LogName, R: Wait + Print>(
    rt: &R,
    alloc: Global,
    publisher: &mut Publisher<L>,
    reader: &mut LogReader<L>,
) -> Result<()> {
    run_session(rt, alloc, publisher)?;
    let mut sender = sender_of_p(alloc, publisher.catalog())?;
    publisher.tell(reader);
    print_sent(rt, alloc, reader, &mut sender)
}

/// A sender of what the publication `p` publishes, from the beginning of the log on.
pub fn sender_of_p(alloc: Global, catalog: &Catalog) -> Result<Sender> {
    let selection = selection_of_p(alloc, catalog)?;
    let arena = Arena::new(alloc, CHUNKS)?;
    Ok(Sender::start(alloc, selection, 0, FIRST_POSITION, arena)?)
}

/// The sender reads the log under clock 9, and tells how far it has read. The reader was told of the whole log.
fn print_sent<L: LogName, R: Print>(
    rt: &R,
    alloc: Global,
    reader: &mut LogReader<L>,
    sender: &mut Sender,
) -> Result<()> {
    feed(alloc, reader, sender)?;
    sender.keepalive(9, false)?;
    // All that is held; for a socket, `drain` takes as much as a buffer has room for.
    let mut bytes = BytesMut::new(alloc);
    sender.drain_into(usize::MAX, &mut bytes)?;
    print_bytes(rt, alloc, bytes.as_slice())
}

pub fn feed<L: LogName>(
    alloc: Global,
    reader: &mut LogReader<L>,
    sender: &mut Sender,
) -> Result<()> {
    let records = reader.fetch(alloc, 100)?;
    Ok(sender.feed(records.as_slice(), 9)?)
}

/// One transaction. What it did after its savepoint is rolled back, and no subscriber gets it.
fn run_session<L: LogName, R: Wait>(
    rt: &R,
    alloc: Global,
    publisher: &mut Publisher<L>,
) -> Result<(), SessionFault> {
    let mut tx = publisher.begin()?;
    let written = write(rt, alloc, publisher, &mut tx);
    // A transaction ends by commit or abort. Either gives it back where it is refused for memory, and it may stay live.
    let ended = match written {
        Ok(()) => publisher.commit(rt, tx, 5).map(|_| ()),
        Err(_) => publisher.abort(rt, tx),
    };
    if let Err((tx, fault)) = ended {
        publisher.leave(tx);
        return Err(fault);
    }
    written
}

fn write<L: LogName, R: Wait>(
    rt: &R,
    alloc: Global,
    publisher: &mut Publisher<L>,
    tx: &mut Tx,
) -> Result<(), SessionFault> {
    publisher.insert(rt, tx, ITEM, item(alloc, 1, "ab", 7)?)?;
    let depth = publisher.savepoint(rt, tx)?;
    publisher.insert(rt, tx, ITEM, item(alloc, 2, "cd", 8)?)?;
    publisher.rollback_to(rt, tx, depth)
}
