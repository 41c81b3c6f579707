//! The rows that are there before a slot's stream.

use crate::copying::session::{CopySession, drop_left};
use crate::fault::FollowFault;
use crate::library::told_tables::ToldTables;
use crate::library::transaction::Transaction;
use crate::login::asking::{ask_system, greet};
use crate::login::peer::Peer;
use crate::options::Options;
use crate::receiving::incoming::Incoming;
use crate::receiving::stream_receiver::StreamReceiver;
use crate::receiving::streamed::{body_in, carried};
use crate::resuming::judge_asked;
use bytes::BytesMut;
use copyboth::ServerBody;
use frames::read_back;
use std::alloc::Global;
use std::random::RandomSource;
use std::sync::Wait;

/// The rows of publications' tables that committed before the point of a slot, which was made with them: one transaction of
/// inserts, whose end is that point. A follower whose options have that position, this system, and no leave to create the slot goes
/// on after it:
///
/// ```text
/// let copied = CopiedRows::new(rt, alloc, &mut connect(rt, address)?, &options, false)?;
/// if let Some(transaction) = copied.transaction() {
///     for change in transaction.changes() { .. }
/// }
/// ```
#[derive(Drop)]
pub struct CopiedRows {
    receiver: StreamReceiver,
    tables: ToldTables,
    system: String,
}

impl CopiedRows {
    /// Makes the slot of the options, and copies, all into memory. Only those columns and rows are copied that are published; which
    /// operations are is of no matter. Where a copy before didn't come to its end, its slot may be left: with `has_left_slot` a
    /// slot of that name is dropped first.
    ///
    /// The server has to answer what PostgreSQL's own subscribers ask, as `pubd --answer-postgresql` does. Faults as of
    /// `Follower::new`; `Server` (K4) where the slot is there, with the code 42710: then it isn't one that is left. `NoPublication`
    /// (K10) names a publication that there isn't.
    pub fn new<R: Wait + RandomSource, S: Peer>(
        rt: &R,
        alloc: Global,
        socket: &mut S,
        options: &Options<'_>,
        has_left_slot: bool,
    ) -> Result<Self, FollowFault> {
        let mut incoming = Incoming::new(alloc);
        let asked = ask(rt, alloc, &mut incoming, socket, options, has_left_slot);
        // Let go before the way out, which keeps the proof short.
        drop(incoming);
        let (system, frames) = asked?;
        let mut copied = CopiedRows {
            receiver: StreamReceiver::new(alloc, 0, 1),
            tables: ToldTables::new(alloc),
            system,
        };
        match copied.take_all(rt, alloc, frames) {
            Ok(()) => Ok(copied),
            Err(fault) => {
                // Let go before the way out, which keeps the proof short.
                drop(copied);
                Err(fault)
            }
        }
    }

    /// Takes all of these frames.
    fn take_all<R: Wait>(
        &mut self,
        rt: &R,
        alloc: Global,
        mut frames: BytesMut,
    ) -> Result<(), FollowFault> {
        for _ in rt.forever() {
            let Some((frame, length)) = read_back(alloc, frames.as_slice())? else {
                break;
            };
            let taken = self.receiver.take(front_of(frames.as_slice(), length));
            let data = carried(frame, taken)?;
            if let ServerBody::XLogData(message) = body_in(&data)? {
                self.tables.learn(message.payload)?;
            }
            let count = length.min(frames.len());
            frames.advance(count);
        }
        Ok(())
    }

    /// The rows, as a transaction whose changes are inserts: its xid and its time are 0.
    pub fn transaction(&self) -> Option<Transaction<'_>> {
        let applied = self.receiver.unprinted().first()?;
        Some(Transaction {
            applied,
            tables: &self.tables,
        })
    }

    /// The position from which a follower goes on.
    pub fn end(&self) -> u64 {
        self.receiver.position()
    }

    /// Which system the server says it is.
    pub fn system(&self) -> &str {
        self.system.as_str()
    }
}

/// Which system the server says it is, and the frames of the copy.
fn ask<R: Wait + RandomSource, S: Peer>(
    rt: &R,
    alloc: Global,
    incoming: &mut Incoming,
    socket: &mut S,
    options: &Options<'_>,
    has_left_slot: bool,
) -> Result<(String, BytesMut), FollowFault> {
    greet(rt, alloc, incoming, socket, options)?;
    let system = ask_system(rt, alloc, incoming, socket)?;
    let judged = judge_asked(alloc, options, system.as_str());
    let copied = match judged {
        Ok(()) => copy(rt, alloc, incoming, socket, options, has_left_slot),
        Err(fault) => Err(fault),
    };
    match copied {
        Ok(frames) => Ok((system, frames)),
        Err(fault) => {
            // Let go before the way out, which keeps the proof short.
            drop(system);
            Err(fault)
        }
    }
}

fn copy<R: Wait, S: Peer>(
    rt: &R,
    alloc: Global,
    incoming: &mut Incoming,
    socket: &mut S,
    options: &Options<'_>,
    has_left_slot: bool,
) -> Result<BytesMut, FollowFault> {
    let session = CopySession::begin(rt, alloc, incoming, socket, options.publications)?;
    let dropped = if has_left_slot {
        drop_left(rt, alloc, incoming, socket, options.slot)
    } else {
        Ok(())
    };
    let copied = match dropped {
        Ok(()) => session.copy(rt, alloc, incoming, socket, options.slot),
        Err(fault) => Err(fault),
    };
    // Let go before the way out, which keeps the proof short.
    drop(session);
    copied
}

fn front_of(bytes: &[u8], count: usize) -> &[u8] {
    &bytes[..count.min(bytes.len())]
}
