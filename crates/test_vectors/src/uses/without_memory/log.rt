//! A log and a sender: what a reader learns and where it goes, and what is drained of what the sender read.

use crate::uses::items::{ITEM, item};
use crate::uses::sending::{feed, sender_of_p};
use crate::uses::without_memory::answered;
use anyhow::Result;
use shared_log::{LogName, LogReader, ReadFault};
use std::alloc::Global;
use std::sync::Wait;
use txlog::{Publisher, Receipt, SessionFault};
use walsender::Sender;

/// How many bytes are sent of the transaction.
const LENGTH: usize = 253;

/// Where the transaction ends.
const END: u64 = 0x100_0050;

pub fn call_of_log<L: LogName, R: Wait>(
    rt: &R,
    alloc: Global,
    publisher: &mut Publisher<L>,
    reader: &mut LogReader<L>,
    is_called: bool,
) -> Result<()> {
    let receipt = commit_one(rt, alloc, publisher)?;
    let in_progress = publisher.begin()?;
    let done = with_receipt(alloc, publisher, reader, &receipt, is_called);
    publisher.leave(in_progress);
    done
}

fn with_receipt<L: LogName>(
    alloc: Global,
    publisher: &mut Publisher<L>,
    reader: &mut LogReader<L>,
    receipt: &Receipt<L>,
    is_called: bool,
) -> Result<()> {
    let mut sender = sender_of_p(alloc, publisher.catalog())?;
    with_sender(alloc, publisher, reader, receipt, is_called, &mut sender)
}

/// The calls of a reader and of a sender that is fed.
fn with_sender<L: LogName>(
    alloc: Global,
    publisher: &mut Publisher<L>,
    reader: &mut LogReader<L>,
    receipt: &Receipt<L>,
    is_called: bool,
    sender: &mut Sender,
) -> Result<()> {
    publisher.tell(reader);
    feed(alloc, reader, sender)?;
    let is_right = !is_called || is_read(publisher, reader, receipt)? && is_drained(sender);
    answered(is_right, "a log's calls answer otherwise")
}

/// A transaction with one insert.
fn commit_one<L: LogName, R: Wait>(
    rt: &R,
    alloc: Global,
    publisher: &mut Publisher<L>,
) -> Result<Receipt<L>, SessionFault> {
    let row = item(alloc, 1, "ab", 7)?;
    let mut tx = publisher.begin()?;
    let inserted = publisher.insert(rt, &mut tx, ITEM, row);
    match publisher.commit(rt, tx, 5) {
        Ok(receipt) => inserted.map(|()| receipt),
        Err((tx, fault)) => {
            publisher.leave(tx);
            Err(fault)
        }
    }
}

fn is_read<L: LogName>(
    publisher: &mut Publisher<L>,
    reader: &mut LogReader<L>,
    receipt: &Receipt<L>,
) -> Result<bool, ReadFault> {
    reader.learn(receipt.told());
    let told = publisher.tell(reader);
    let restart = reader.resume(END, told)?;
    let ended = reader.place();
    reader.seek(0);
    Ok(told == 2 && restart == END && ended == 2 && reader.place() == 0 && publisher.end() == END)
}

fn is_drained(sender: &mut Sender) -> bool {
    let mut bytes = [0; LENGTH];
    let (front, back) = bytes.split_at_mut(100);
    let drained = sender.drain(front) + sender.drain(back);
    drained == LENGTH
        && !sender.holds_bytes()
        && sender.position() == END
        && sender.free_chunks() > 0
}
