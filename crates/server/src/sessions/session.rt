//! The frames of a session, in which queries are answered.

ghost use Rattle.std.specs.Prelude.{◌≡◌, true, IfOk, OnErr};
ghost use Rattle.frames.specs.declared.front.Front.TheVariants.{Query};
ghost use Rattle.pqformat.specs.Putting.{Extends};
ghost use Rattle.server.specs.Conversation.{Answered};
ghost use Rattle.server.specs.Extended.{is_extended};
ghost use Rattle.server.specs.Segment.{IsTurned, Said, TakesTurn};
ghost use Rattle.server.specs.Turns.{Hears, HearsExtended};
ghost use Rattle.server.specs.declared.stages.stage.Stage.TheVariants.{Idle};

use crate::asked::database::Database;
use crate::asked::extended::{Extended, is_extended, read_extended};
use crate::asked::replying::reply_in;
use crate::backend::Backend;
use crate::connection_terms::{ConnectionTerms, Dialect};
use crate::refusal::Refusal;
use crate::said::say::{say_ready, say_refused, say_refused_ready};
use crate::sessions::block::begins_block;
use crate::sessions::block_query::begin;
use crate::stages::stage::{Stage, Turned, refuse};
use bytes::BytesMut;
use frames::{Front, read_front};
use std::alloc::{AllocError, Global};

/// Answers a query.
fn answer_query<D: Backend>(
    alloc: Global,
    dialect: Dialect,
    database: Database,
    query: &str,
    backend: &mut D,
    out: &mut BytesMut,
) -> Result<Stage, AllocError>
    ensures { Answered D.told result
        (λ next asked said. Hears dialect database (Query (record { text = query.now })) asked said
        next)
        backend.old out.old.items backend.new out.new.items }
{
    if begins_block(dialect, query) {
        return begin(alloc, database, backend, out);
    }
    if reply_in(alloc, dialect, &database, query, backend, out)? {
        Ok(Stage::Streaming(database))
    } else {
        Ok(Stage::Idle(database))
    }
}

fn answer_front<D: Backend>(
    alloc: Global,
    dialect: Dialect,
    database: Database,
    front: &Front,
    backend: &mut D,
    out: &mut BytesMut,
) -> Result<Stage, AllocError>
    ensures { Answered D.told result
        (λ next asked said. Hears dialect database front.now asked said next) backend.old out.old.items
        backend.new out.new.items }
{
    match front {
        Front::Query(query) => answer_query(
            alloc,
            dialect,
            database,
            query.text.as_str(),
            backend,
            out,
        ),
        Front::Terminate => Ok(Stage::Closed),
        Front::CopyData(_) | Front::CopyDone | Front::CopyFail(_) => {
            say_refused(alloc, out, Refusal::Violation)?;
            Ok(Stage::Closed)
        }
    }
}

/// Answers a frame of an extended query, of which the first is refused, and a function call.
#[tactic(auto, using(pqformat::proofs::Putting::in_place))]
fn answer_extended(
    alloc: Global,
    database: Database,
    extended: Extended,
    out: &mut BytesMut,
) -> Result<Stage, AllocError>
    ensures says { IfOk result
        (λ next. Said (λ asked said. HearsExtended database extended asked said next) out.old.items
        out.new.items) }
    ensures kept { OnErr result (Extends out.old.items out.new.items) }
{
    match extended {
        Extended::Step => {
            say_refused(alloc, out, Refusal::ExtendedQuery)?;
            Ok(Stage::Skipping(database))
        }
        Extended::Flush => Ok(Stage::Idle(database)),
        Extended::Sync => {
            say_ready(out)?;
            Ok(Stage::Idle(database))
        }
        Extended::Call => {
            say_refused_ready(alloc, out, Refusal::FunctionCall)?;
            Ok(Stage::Idle(database))
        }
    }
}

/// The turn of a session for the frames of extended queries.
#[tactic(auto, using(pqformat::proofs::Putting::in_place))]
fn turn_extended(
    alloc: Global,
    database: Database,
    pending: &[u8],
    out: &mut BytesMut,
) -> Result<Turned, AllocError>
    requires { is_extended pending.now ≡ true }
    ensures turned { (service : ConnectionTerms) →
        IfOk result
        (λ t. IsTurned service (Idle database) pending.now t (out.new.items ≡ out.old.items)
        (λ fact. Said fact out.old.items out.new.items)) }
    ensures kept { OnErr result (Extends out.old.items out.new.items) }
{
    match read_extended(pending) {
        Ok(None) => Ok(Turned {
            stage: Stage::Idle(database),
            count: 0,
        }),
        Ok(Some((extended, count))) => {
            let stage = answer_extended(alloc, database, extended, out)?;
            Ok(Turned { stage, count })
        }
        Err(fault) => refuse(alloc, fault, pending, out),
    }
}

/// The turn of a session.
pub(crate) fn turn_session<D: Backend>(
    alloc: Global,
    service: ConnectionTerms,
    database: Database,
    pending: &[u8],
    backend: &mut D,
    out: &mut BytesMut,
) -> Result<Turned, AllocError>
    ensures { TakesTurn D.told service (Idle database) pending.now result backend.old out.old.items
        backend.new out.new.items }
{
    if is_extended(pending) {
        return turn_extended(alloc, database, pending, out);
    }
    match read_front(alloc, pending) {
        Ok(None) => Ok(Turned {
            stage: Stage::Idle(database),
            count: 0,
        }),
        Ok(Some((front, count))) => {
            let answered = answer_front(alloc, service.dialect, database, &front, backend, out);
            // Let go before the way out, which keeps the proof short.
            drop(front);
            let stage = answered?;
            Ok(Turned { stage, count })
        }
        Err(fault) => refuse(alloc, fault, pending, out),
    }
}
