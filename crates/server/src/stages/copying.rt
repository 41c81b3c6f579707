//! A copy that runs in a block: its rows, some at a time.

ghost use Rattle.std.specs.Prelude.{◌≡◌, ◌-◌, ◌<◌, ◌^◌, [], length, true, IfOk};
ghost use Rattle.server.specs.Conversation.{Answered};
ghost use Rattle.server.specs.Copies.{CopiesFrom, CopiesOn, after_row, next_said};
ghost use Rattle.server.specs.RowText.{AreShortNext};
ghost use Rattle.server.specs.Segment.{is_copying, rows_left};
ghost use Rattle.pqformat.specs.Putting.{Puts};

use crate::backend::Backend;
use crate::backend_fault::BackendFault;
use crate::refusal::Refusal;
use crate::said::say_copy::{say_copy_ended, say_refused_in_block, say_row};
use crate::sessions::block::{Block, BlockState};
use crate::sessions::block_query::led;
use crate::stages::stage::Stage;
use bytes::BytesMut;
use pqformat::{Items, Text};
use std::alloc::{AllocError, Global};

/// How many bytes of rows are added at once, but for the last row, which is added whole.
const MOST_ADDED_BYTES: usize = 65_536;

/// A copy in this block, and how many of its rows were said.
#[derive(Drop)]
pub struct Copying {
    pub(crate) block: Block,
    pub(crate) count: u64,
}

/// Says what the backend gave: a row, or the end of a copy of so many rows.
#[tactic(auto, using(pqformat::proofs::Putting::in_place))]
fn say_next(
    alloc: Global,
    out: &mut BytesMut,
    count: u64,
    answer: &Result<Option<Items<Option<Text>>>, BackendFault>,
) -> Result<(), AllocError>
    requires { AreShortNext answer.now }
    ensures { Puts result out.old.items out.new.items (next_said count answer.now) }
{
    match answer {
        Ok(Some(row)) => say_row(alloc, out, row.as_slice()),
        Ok(None) => say_copy_ended(alloc, out, count),
        Err(fault) => say_refused_in_block(alloc, out, Refusal::Asked(*fault)),
    }
}

/// Where it leads to what the backend gave.
fn after_row(copying: Copying, answer: &Result<Option<Items<Option<Text>>>, BackendFault>) -> Stage
    requires { copying.count < 2 ^ 64 - 1 }
    ensures { result ≡ after_row copying answer.now }
{
    match answer {
        Ok(Some(_)) => Stage::Copying(Copying {
            block: copying.block,
            count: copying.count + 1,
        }),
        Ok(None) => Stage::InBlock(copying.block),
        Err(_) => Stage::InBlock(copying.block.with_state(BlockState::Failed)),
    }
}

/// Says the next row, or the end.
fn add_counted<D: Backend>(
    alloc: Global,
    copying: Copying,
    backend: &mut D,
    out: &mut BytesMut,
) -> Result<Stage, AllocError>
    requires { copying.count < 2 ^ 64 - 1 }
    ensures says { Answered D.told result (λ next asked said. CopiesOn copying asked said next)
        backend.old out.old.items backend.new out.new.items }
    ensures less { IfOk result (λ next. rows_left next < rows_left (Stage.Copying copying)) }
    ensures longer { IfOk result (λ _. length out.old.items < length out.new.items) }
{
    let answer = backend.next_row();
    let said = say_next(alloc, out, copying.count, &answer);
    let next = after_row(copying, &answer);
    // Let go before the way out, which keeps the proof short.
    drop(answer);
    led(said, next)
}

/// The same. `AllocError` also where the rows are more than can be counted.
fn add_row<D: Backend>(
    alloc: Global,
    stage: Stage,
    backend: &mut D,
    out: &mut BytesMut,
) -> Result<Stage, AllocError>
    requires { is_copying stage ≡ true }
    ensures says { Answered D.told result (λ next asked said. CopiesFrom stage asked said next)
        backend.old out.old.items backend.new out.new.items }
    ensures less { IfOk result (λ next. rows_left next < rows_left stage) }
    ensures longer { IfOk result (λ _. length out.old.items < length out.new.items) }
{
    match stage {
        Stage::Copying(copying) if copying.count < u64::MAX => {
            add_counted(alloc, copying, backend, out)
        }
        _ => Err(AllocError),
    }
}

fn is_copying(stage: &Stage) -> bool
    ensures { result ≡ is_copying stage.now }
{
    matches!(stage, Stage::Copying(_))
}

/// The turn of a copy, for which nothing has to come: some rows, or all that are left and the end.
pub(crate) fn turn_copy<D: Backend>(
    alloc: Global,
    stage: Stage,
    backend: &mut D,
    out: &mut BytesMut,
) -> Result<Stage, AllocError>
    requires { is_copying stage ≡ true }
    ensures says { Answered D.told result (λ next asked said. CopiesFrom stage asked said next)
        backend.old out.old.items backend.new out.new.items }
    ensures less { IfOk result (λ next. rows_left next < rows_left stage) }
{
    let until = out.len().saturating_add(MOST_ADDED_BYTES);
    let mut place = add_row(alloc, stage, backend, out)?;
    while is_copying(&place) && out.len() < until {
        place = add_row(alloc, place, backend, out)?;
    }
    Ok(place)
}
