//! The frames of a client in a transaction block.

ghost use Rattle.server.specs.Conversation.{Answered};
ghost use Rattle.server.specs.Segment.{TakesTurn};
ghost use Rattle.server.specs.Turns.{HearsInBlock};
ghost use Rattle.server.specs.declared.stages.stage.Stage.TheVariants.{InBlock};

use crate::backend::Backend;
use crate::connection_terms::ConnectionTerms;
use crate::refusal::Refusal;
use crate::said::say::say_refused;
use crate::sessions::block::Block;
use crate::sessions::block_query::answer_in_block;
use crate::stages::stage::{Stage, Turned, refuse};
use bytes::BytesMut;
use frames::{Front, read_front};
use std::alloc::{AllocError, Global};

fn answer_front<D: Backend>(
    alloc: Global,
    block: Block,
    front: &Front,
    backend: &mut D,
    out: &mut BytesMut,
) -> Result<Stage, AllocError>
    ensures { Answered D.told result (λ next asked said. HearsInBlock block front.now asked said next)
        backend.old out.old.items backend.new out.new.items }
{
    match front {
        Front::Query(query) => answer_in_block(alloc, block, query.text.as_str(), backend, out),
        Front::Terminate => Ok(Stage::Closed),
        Front::CopyData(_) | Front::CopyDone | Front::CopyFail(_) => {
            say_refused(alloc, out, Refusal::Violation)?;
            Ok(Stage::Closed)
        }
    }
}

/// The turn of a session with a transaction block.
pub(crate) fn turn_block<D: Backend>(
    alloc: Global,
    block: Block,
    pending: &[u8],
    backend: &mut D,
    out: &mut BytesMut,
) -> Result<Turned, AllocError>
    ensures { (service : ConnectionTerms) →
        TakesTurn D.told service (InBlock block) pending.now result backend.old out.old.items
        backend.new out.new.items }
{
    match read_front(alloc, pending) {
        Ok(None) => Ok(Turned {
            stage: Stage::InBlock(block),
            count: 0,
        }),
        Ok(Some((front, count))) => {
            let answered = answer_front(alloc, block, &front, backend, out);
            // Let go before the way out, which keeps the proof short.
            drop(front);
            let stage = answered?;
            Ok(Turned { stage, count })
        }
        Err(fault) => refuse(alloc, fault, pending, out),
    }
}
