//! One turn of a conversation: the startup or the frame at the front of what is pending, and its answer.

ghost use Rattle.std.specs.Prelude.{◌≡◌, ◌≤◌, ◌+◌, length, OnErr, IfOk, codes, false};
ghost use Rattle.frames.specs.Parameter.{parameter};
ghost use Rattle.frames.specs.Startup.{startup_body};
ghost use Rattle.pqformat.specs.Putting.{Extends, Puts};
ghost use Rattle.pqformat.specs.Steps.{closed_list};
ghost use Rattle.frames.specs.declared.frontend.startup.Startup.TheVariants.{Session};
ghost use Rattle.server.specs.Segment.{IsTurned, TakesTurn, Said, is_copying};
ghost use Rattle.server.specs.Turns.{Opens};
ghost use Rattle.server.specs.declared.stages.stage.Stage.TheVariants.{Fresh};

use crate::asked::database::MOST_DATABASE_BYTES;
use crate::backend::Backend;
use crate::connection_terms::ConnectionTerms;
use crate::sessions::in_block::turn_block;
use crate::sessions::session::turn_session;
use crate::stages::opening::open;
use crate::stages::skipping::turn_skipping;
use crate::stages::stage::{Stage, Turned, refuse};
use crate::stages::streaming::turn_stream;
use bytes::BytesMut;
use frames::{Parameter, STARTUP_LIMIT, Startup, read_startup};
use std::alloc::{AllocError, Global};

/// Answers a session's startup.
#[tactic(auto, using(pqformat::proofs::Putting::in_place))]
fn open_session(
    alloc: Global,
    service: ConnectionTerms,
    parameters: &[Parameter],
    out: &mut BytesMut,
) -> Result<Stage, AllocError>
    requires { length (closed_list parameter parameters.now) ≤ MOST_DATABASE_BYTES }
    ensures says { IfOk result
        (λ next. Said (λ asked said. Opens service (Session parameters.now) asked said next)
        out.old.items out.new.items) }
    ensures kept { OnErr result (Extends out.old.items out.new.items) }
{
    match open(alloc, service, parameters, out)? {
        Some(database) => Ok(Stage::Idle(database)),
        None => Ok(Stage::Closed),
    }
}

/// Declines encryption (PostgreSQL 15, 55.2.10 and 55.2.11).
#[tactic(auto, using(pqformat::proofs::Putting::in_place))]
fn decline(out: &mut BytesMut) -> Result<(), AllocError>
    ensures { Puts result out.old.items out.new.items (codes "N") }
{
    out.extend_from_slice(b"N")
}

#[tactic(auto, using(pqformat::proofs::Putting::in_place))]
fn answer_startup(
    alloc: Global,
    service: ConnectionTerms,
    startup: &Startup,
    out: &mut BytesMut,
) -> Result<Stage, AllocError>
    requires { 8 + length (startup_body startup.now) ≤ STARTUP_LIMIT }
    ensures says { IfOk result
        (λ next. Said (λ asked said. Opens service startup.now asked said next) out.old.items
        out.new.items) }
    ensures kept { OnErr result (Extends out.old.items out.new.items) }
{
    match startup {
        Startup::Session(parameters) => open_session(alloc, service, parameters.as_slice(), out),
        Startup::Ssl => {
            decline(out)?;
            Ok(Stage::Fresh)
        }
        Startup::Gss => {
            decline(out)?;
            Ok(Stage::Fresh)
        }
        Startup::Cancel(_, _) => Ok(Stage::Closed),
    }
}

/// The turn of a connection that waits for its startup.
#[tactic(auto, using(pqformat::proofs::Putting::in_place))]
fn turn_startup(
    alloc: Global,
    service: ConnectionTerms,
    pending: &[u8],
    out: &mut BytesMut,
) -> Result<Turned, AllocError>
    ensures turned { IfOk result
        (λ t. IsTurned service Fresh pending.now t (out.new.items ≡ out.old.items)
        (λ fact. Said fact out.old.items out.new.items)) }
    ensures kept { OnErr result (Extends out.old.items out.new.items) }
{
    match read_startup(alloc, pending) {
        Ok(None) => Ok(Turned {
            stage: Stage::Fresh,
            count: 0,
        }),
        Ok(Some((startup, count))) => {
            let stage = answer_startup(alloc, service, &startup, out)?;
            Ok(Turned { stage, count })
        }
        Err(fault) => refuse(alloc, fault, pending, out),
    }
}

/// Takes one turn at this stage. While a stream stops, all that is pending waits; closed, it is passed over.
pub(crate) fn turn<D: Backend>(
    alloc: Global,
    service: ConnectionTerms,
    stage: Stage,
    pending: &[u8],
    backend: &mut D,
    out: &mut BytesMut,
) -> Result<Turned, AllocError>
    requires { is_copying stage ≡ false }
    ensures { TakesTurn D.told service stage pending.now result backend.old out.old.items backend.new
        out.new.items }
{
    match stage {
        Stage::Fresh => turn_startup(alloc, service, pending, out),
        Stage::Idle(database) => turn_session(alloc, service, database, pending, backend, out),
        Stage::InBlock(block) => turn_block(alloc, block, pending, backend, out),
        // Its turns are taken by another function.
        Stage::Copying(copying) => Ok(Turned {
            stage: Stage::Copying(copying),
            count: 0,
        }),
        Stage::Skipping(database) => turn_skipping(alloc, database, pending, out),
        Stage::Streaming(database) => turn_stream(alloc, database, pending, backend, out),
        Stage::Stopping(database) => Ok(Turned {
            stage: Stage::Stopping(database),
            count: 0,
        }),
        Stage::Closed => Ok(Turned {
            stage: Stage::Closed,
            count: pending.len(),
        }),
    }
}
