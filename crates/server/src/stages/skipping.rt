//! What is passed over once an extended query was refused: all up to its Sync (PostgreSQL 15, 55.2.3).

ghost use Rattle.std.specs.Prelude.{◌≡◌, [], true, IfOk, OnErr};
ghost use Rattle.pqformat.specs.Putting.{Extends};
ghost use Rattle.server.specs.Extended.{is_extended};
ghost use Rattle.server.specs.Segment.{IsTurned, Said};
ghost use Rattle.server.specs.Turns.{Skips, SkipsExtended};
ghost use Rattle.server.specs.declared.stages.stage.Stage.TheVariants.{Skipping};

use crate::asked::database::Database;
use crate::asked::extended::{Extended, is_extended, read_extended};
use crate::connection_terms::ConnectionTerms;
use crate::said::say::say_ready;
use crate::stages::stage::{Stage, Turned, refuse};
use bytes::BytesMut;
use frames::{Front, read_front};
use std::alloc::{AllocError, Global};

#[tactic(auto, using(pqformat::proofs::Putting::in_place))]
fn pass_extended(
    database: Database,
    extended: Extended,
    out: &mut BytesMut,
) -> Result<Stage, AllocError>
    ensures says { IfOk result
        (λ next. Said (λ asked said. SkipsExtended database extended asked said next) out.old.items
        out.new.items) }
    ensures kept { OnErr result (Extends out.old.items out.new.items) }
{
    match extended {
        Extended::Sync => {
            say_ready(out)?;
            Ok(Stage::Idle(database))
        }
        Extended::Step | Extended::Flush | Extended::Call => Ok(Stage::Skipping(database)),
    }
}

/// The turn for the frames of extended queries.
#[tactic(auto, using(pqformat::proofs::Putting::in_place))]
fn skip_extended(
    alloc: Global,
    database: Database,
    pending: &[u8],
    out: &mut BytesMut,
) -> Result<Turned, AllocError>
    requires { is_extended pending.now ≡ true }
    ensures turned { (service : ConnectionTerms) →
        IfOk result
        (λ t. IsTurned service (Skipping database) pending.now t (out.new.items ≡ out.old.items)
        (λ fact. Said fact out.old.items out.new.items)) }
    ensures kept { OnErr result (Extends out.old.items out.new.items) }
{
    match read_extended(pending) {
        Ok(None) => Ok(Turned {
            stage: Stage::Skipping(database),
            count: 0,
        }),
        Ok(Some((extended, count))) => {
            let stage = pass_extended(database, extended, out)?;
            Ok(Turned { stage, count })
        }
        Err(fault) => refuse(alloc, fault, pending, out),
    }
}

fn pass_front(database: Database, front: Front) -> Stage
    ensures { Skips database front [] [] result }
{
    match front {
        Front::Terminate => Stage::Closed,
        Front::Query(_) | Front::CopyData(_) | Front::CopyDone | Front::CopyFail(_) => {
            Stage::Skipping(database)
        }
    }
}

/// The turn of a session whose extended query was refused.
#[tactic(auto, using(pqformat::proofs::Putting::in_place))]
pub(crate) fn turn_skipping(
    alloc: Global,
    database: Database,
    pending: &[u8],
    out: &mut BytesMut,
) -> Result<Turned, AllocError>
    ensures turned { (service : ConnectionTerms) →
        IfOk result
        (λ t. IsTurned service (Skipping database) pending.now t (out.new.items ≡ out.old.items)
        (λ fact. Said fact out.old.items out.new.items)) }
    ensures kept { OnErr result (Extends out.old.items out.new.items) }
{
    if is_extended(pending) {
        return skip_extended(alloc, database, pending, out);
    }
    match read_front(alloc, pending) {
        Ok(None) => Ok(Turned {
            stage: Stage::Skipping(database),
            count: 0,
        }),
        Ok(Some((front, count))) => {
            let stage = pass_front(database, front);
            Ok(Turned { stage, count })
        }
        Err(fault) => refuse(alloc, fault, pending, out),
    }
}
