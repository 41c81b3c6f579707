//! The frames of a client while a stream runs: how far it is, and that the stream is to end.

ghost use Rattle.std.specs.Prelude.{◌∷◌, []};
ghost use Rattle.frames.specs.declared.front.Front.TheVariants.{CopyData};
ghost use Rattle.server.specs.Calls.{AreAsked, Flushed};
ghost use Rattle.server.specs.Conversation.{Answered};
ghost use Rattle.server.specs.Segment.{TakesTurn};
ghost use Rattle.server.specs.Turns.{Streams};
ghost use Rattle.server.specs.declared.stages.stage.Stage.TheVariants.{Streaming};

use crate::asked::database::Database;
use crate::backend::Backend;
use crate::connection_terms::ConnectionTerms;
use crate::refusal::Refusal;
use crate::said::say::say_refused;
use crate::stages::stage::{Stage, Turned, refuse};
use bytes::BytesMut;
use copyboth::{Status, read_client};
use frames::{Front, read_front};
use std::alloc::{AllocError, Global};

/// Tells the backend how far the client is, and whether it asks for an answer.
fn tell<D: Backend>(status: Status, backend: &mut D)
    ensures { AreAsked D.told backend.old (Flushed status.flushed status.ask ∷ []) backend.new }
{
    backend.flushed(status.flushed, status.ask);
}

/// Answers the bytes of a CopyData: a status is told to the backend, and what is none is refused.
fn answer_data<D: Backend>(
    alloc: Global,
    database: Database,
    bytes: &[u8],
    backend: &mut D,
    out: &mut BytesMut,
) -> Result<Stage, AllocError>
    ensures { Answered D.told result
        (λ next asked said. Streams database (CopyData (record { bytes = bytes.now })) asked said
        next)
        backend.old out.old.items backend.new out.new.items }
{
    match read_client(bytes) {
        Ok(status) => {
            tell(status, backend);
            Ok(Stage::Streaming(database))
        }
        Err(_) => {
            say_refused(alloc, out, Refusal::Violation)?;
            Ok(Stage::Closed)
        }
    }
}

fn answer_in_stream<D: Backend>(
    alloc: Global,
    database: Database,
    front: &Front,
    backend: &mut D,
    out: &mut BytesMut,
) -> Result<Stage, AllocError>
    ensures { Answered D.told result (λ next asked said. Streams database front.now asked said next)
        backend.old out.old.items backend.new out.new.items }
{
    match front {
        Front::CopyData(data) => answer_data(alloc, database, data.bytes.as_slice(), backend, out),
        Front::CopyDone => Ok(Stage::Stopping(database)),
        Front::Terminate => Ok(Stage::Closed),
        Front::Query(_) | Front::CopyFail(_) => {
            say_refused(alloc, out, Refusal::Violation)?;
            Ok(Stage::Closed)
        }
    }
}

/// The turn of a client to which a stream runs (PostgreSQL 15, 55.2.6 and 55.4).
pub(crate) fn turn_stream<D: Backend>(
    alloc: Global,
    database: Database,
    pending: &[u8],
    backend: &mut D,
    out: &mut BytesMut,
) -> Result<Turned, AllocError>
    ensures { (service : ConnectionTerms) →
        TakesTurn D.told service (Streaming database) pending.now result backend.old out.old.items
        backend.new out.new.items }
{
    match read_front(alloc, pending) {
        Ok(None) => Ok(Turned {
            stage: Stage::Streaming(database),
            count: 0,
        }),
        Ok(Some((front, count))) => {
            let answered = answer_in_stream(alloc, database, &front, backend, out);
            // Let go before the way out, which keeps the proof short.
            drop(front);
            let stage = answered?;
            Ok(Turned { stage, count })
        }
        Err(fault) => refuse(alloc, fault, pending, out),
    }
}
