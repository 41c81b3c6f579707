//! What the frames of a stream hold, with the faults of those that hold nothing, and what is printed of it.

ghost use Rattle.std.specs.Prelude.{◌≡◌};

use crate::fault::{FollowFault, told};
use client::{Applied, ClientFault};
use copyboth::{ServerBody, read_server};
use frames::{Back, CopyData};
use pgoutput::{Begin, Commit, Logical, PgoutputError, read_logical};
use std::alloc::Global;
use std::io::Write;

/// What a frame carries that the applier took so. No frame but CopyData carries anything: `Server` (K4) of an ErrorResponse,
/// `Ended` (K6) of a CopyDone, `Client` (K1) of any other; and the applier's fault.
pub(crate) fn carried(
    frame: Back,
    taken: Result<(), ClientFault>,
) -> Result<CopyData, FollowFault> {
    match frame {
        Back::ErrorResponse(error) => Err(told(error)),
        Back::CopyData(data) => match taken {
            Ok(()) => Ok(data),
            Err(fault) => {
                drop(data);
                Err(FollowFault::Client(fault))
            }
        },
        Back::CopyDone => Err(FollowFault::Ended),
        other => {
            drop(other);
            Err(FollowFault::Client(ClientFault::Frame))
        }
    }
}

/// The body in CopyData. `Client` (K1) where it is none.
pub(crate) fn body_in(data: &CopyData) -> Result<ServerBody<'_>, FollowFault> {
    match read_server(data.bytes.as_slice()) {
        Ok(body) => Ok(body),
        Err(_) => Err(FollowFault::Client(ClientFault::Frame)),
    }
}

/// The message that a body carries. `Client` where it is none (K1), or memory for it is refused (K5).
pub(crate) fn message_in(alloc: Global, payload: &[u8]) -> Result<Logical, FollowFault> {
    match read_logical(alloc, payload) {
        Ok(message) => Ok(message),
        Err(PgoutputError::Memory) => Err(FollowFault::Client(ClientFault::Memory)),
        Err(_) => Err(FollowFault::Client(ClientFault::Frame)),
    }
}

/// The message with which a transaction began.
pub(crate) fn begin_of(transaction: &Applied) -> Begin {
    Begin {
        position: transaction.start,
        time: transaction.time,
        xid: transaction.xid,
    }
}

/// The message with which it ended.
pub(crate) fn commit_of(transaction: &Applied) -> Commit
    ensures { (result.position ≡ transaction.now.start) × (result.end ≡ transaction.now.end)
        × (result.time ≡ transaction.now.time) }
{
    Commit {
        position: transaction.start,
        end: transaction.end,
        time: transaction.time,
    }
}

/// Prints lines, and has them flushed. `Output` (K6) where that fails.
pub(crate) fn print_lines<W: Write>(lines: &[u8], output: &mut W) -> Result<(), FollowFault> {
    output.write_all(lines).map_err(FollowFault::Output)?;
    output.flush().map_err(FollowFault::Output)
}
