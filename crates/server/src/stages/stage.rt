//! How far a conversation is, what a turn leaves of it, and the answer of what can't be read.

ghost use Rattle.std.specs.Prelude.{◌≡◌, ◌≢◌, ◌++◌, length, IfOk, OnOk, OnErr};
ghost use Rattle.pqformat.specs.Putting.{Extends};
ghost use Rattle.server.specs.Said.{error_of_refusal};
ghost use Rattle.server.specs.Turns.{refusal_of};

use crate::asked::database::Database;
use crate::refusal::Refusal;
use crate::said::say::say_refused;
use crate::sessions::block::Block;
use crate::stages::copying::Copying;
use bytes::BytesMut;
use frames::FrameFault;
use std::alloc::{AllocError, Global};

/// How far a conversation is.
#[derive(Drop)]
pub enum Stage {
    /// The startup is waited for.
    Fresh,
    /// A query is.
    Idle(Database),
    /// A query is, in a transaction block.
    InBlock(Block),
    /// The rows of a table are copied.
    Copying(Copying),
    /// An extended query was refused, and its Sync is waited for.
    Skipping(Database),
    /// A stream has begun.
    Streaming(Database),
    /// The client has asked for its end, and not all of it has been said.
    Stopping(Database),
    Closed,
}

/// What a turn leaves: the stage, and how many of the pending bytes it took. None, if they have to wait for more.
#[derive(Drop)]
pub struct Turned {
    pub stage: Stage,
    pub count: usize,
}

/// Refuses what is pending, since it can't be read. The connection closes, and all of that is passed over.
#[tactic(auto, using(pqformat::proofs::Putting::in_place))]
pub(crate) fn refuse(
    alloc: Global,
    fault: FrameFault,
    pending: &[u8],
    out: &mut BytesMut,
) -> Result<Turned, AllocError>
    ensures readable { OnOk result (fault ≢ FrameFault.Memory) }
    ensures closes { IfOk result
        (λ t. t ≡ record { stage = Stage.Closed; count = length pending.now }) }
    ensures says { OnOk result
        (out.new.items ≡ out.old.items ++ error_of_refusal (refusal_of fault)) }
    ensures kept { OnErr result (Extends out.old.items out.new.items) }
{
    match fault {
        FrameFault::Memory => return Err(AllocError),
        FrameFault::BadVersion => say_refused(alloc, out, Refusal::Version)?,
        _ => say_refused(alloc, out, Refusal::Violation)?,
    }
    Ok(Turned {
        stage: Stage::Closed,
        count: pending.len(),
    })
}
