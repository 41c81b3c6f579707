//! A query in a block that asks for the copy of a table.

ghost use Rattle.server.specs.Blocks.{AnswersUnended};
ghost use Rattle.server.specs.Conversation.{Answered};
ghost use Rattle.server.specs.Copies.{AnswersCopy, OpensCopy, RefusesCopy, opened};
ghost use Rattle.std.specs.Prelude.{◌≡◌, ◌≤◌, length, true};
ghost use Rattle.server.specs.declared.asked.copy_command.TheConstants.{MOST_COLUMNS};

use crate::asked::copy_command::{CopyCommand, copy_of};
use crate::backend::Backend;
use crate::backend_fault::BackendFault;
use crate::refusal::Refusal;
use crate::said::say_copy::{say_opened, say_refused_in_block};
use crate::sessions::block::{Block, BlockState};
use crate::sessions::block_query::{go_on, led};
use crate::stages::copying::Copying;
use crate::stages::stage::Stage;
use bytes::BytesMut;
use std::alloc::{AllocError, Global};

/// Refuses a copy, by which the block fails, and tells that to the backend.
fn refuse_copy<D: Backend>(
    alloc: Global,
    block: Block,
    query: &str,
    refusal: Refusal,
    backend: &mut D,
    out: &mut BytesMut,
) -> Result<Stage, AllocError>
    ensures { Answered D.told result
        (λ next asked said. RefusesCopy block refusal asked said next) backend.old out.old.items
        backend.new out.new.items }
{
    backend.refused(query, refusal);
    let said = say_refused_in_block(alloc, out, refusal);
    led(said, Stage::InBlock(block.with_state(BlockState::Failed)))
}

/// The stage of a copy that was asked for.
fn opened(block: Block, answer: Result<(), BackendFault>) -> Stage
    ensures { result ≡ opened block answer }
{
    match answer {
        Ok(()) => Stage::Copying(Copying {
            block: block.with_state(BlockState::Used),
            count: 0,
        }),
        Err(_) => Stage::InBlock(block.with_state(BlockState::Failed)),
    }
}

/// Begins a copy.
fn open_held<D: Backend>(
    alloc: Global,
    block: Block,
    copy: &CopyCommand,
    backend: &mut D,
    out: &mut BytesMut,
) -> Result<Stage, AllocError>
    requires { length copy.now.columns ≤ MOST_COLUMNS }
    ensures { Answered D.told result
        (λ next asked said. OpensCopy true block copy.now asked said next) backend.old out.old.items
        backend.new out.new.items }
{
    let answer = backend.open_copy(&copy.table, &copy.columns, &copy.filter);
    let said = say_opened(alloc, out, copy.columns.as_slice(), answer);
    led(said, opened(block, answer))
}

/// Begins a copy, if a snapshot is held.
fn open<D: Backend>(
    alloc: Global,
    block: Block,
    query: &str,
    copy: &CopyCommand,
    backend: &mut D,
    out: &mut BytesMut,
) -> Result<Stage, AllocError>
    requires { length copy.now.columns ≤ MOST_COLUMNS }
    ensures { Answered D.told result
        (λ next asked said. OpensCopy block.holds block copy.now asked said next) backend.old
        out.old.items backend.new out.new.items }
{
    if block.holds {
        return open_held(alloc, block, copy, backend, out);
    }
    let refusal = Refusal::Asked(BackendFault::NoCopies);
    refuse_copy(alloc, block, query, refusal, backend, out)
}

/// Answers a query that asks for a copy.
pub(crate) fn answer_copy<D: Backend>(
    alloc: Global,
    block: Block,
    query: &str,
    copy: &CopyCommand,
    backend: &mut D,
    out: &mut BytesMut,
) -> Result<Stage, AllocError>
    requires { length copy.now.columns ≤ MOST_COLUMNS }
    ensures { Answered D.told result
        (λ next asked said. AnswersCopy block.state block copy.now asked said next) backend.old
        out.old.items backend.new out.new.items }
{
    match block.state {
        BlockState::Failed => {
            refuse_copy(alloc, block, query, Refusal::BlockFailed, backend, out)
        }
        BlockState::Begun | BlockState::Used => open(alloc, block, query, copy, backend, out),
    }
}

/// Answers a query that doesn't end the block.
pub(crate) fn answer_unended<D: Backend>(
    alloc: Global,
    block: Block,
    query: &str,
    backend: &mut D,
    out: &mut BytesMut,
) -> Result<Stage, AllocError>
    ensures { Answered D.told result
        (λ next asked said. AnswersUnended block query.now asked said next) backend.old out.old.items
        backend.new out.new.items }
{
    let Some(copy) = copy_of(alloc, query)? else {
        return go_on(alloc, block, query, backend, out);
    };
    let answered = answer_copy(alloc, block, query, &copy, backend, out);
    // Let go before the way out, which keeps the proof short.
    drop(copy);
    answered
}
