//! The queries of a transaction block.

ghost use Rattle.std.specs.Prelude.{◌≡◌, ◌≤◌, ◌-◌, List, ℕ, None, take, true, length};
ghost use Rattle.pqformat.specs.Putting.{Puts};
ghost use Rattle.server.specs.Blocks.{Answers, AnswersIn, Begins, Ends, Goes, Refused, Settles, given, Says, UsesSnapshot, AnswersApart, HasShortSlot, HasShortUse, begins_block, block_after, block_begun, completed, ending_of, is_made, let_go, new_block, told_in_block};
ghost use Rattle.server.specs.Calls.{AreAsked};
ghost use Rattle.server.specs.Conversation.{Answered};
ghost use Rattle.server.specs.Turns.{HearsQuery};
ghost use Rattle.server.specs.declared.sessions.block.Block.{Block};

use crate::asked::copy_query::answer_unended;
use crate::asked::database::Database;
use crate::asked::replying::reply_in;
use crate::backend::Backend;
use crate::backend_fault::BackendFault;
use crate::connection_terms::Dialect;
use crate::refusal::Refusal;
use crate::said::say::{say, say_completed, say_created, say_ready, say_refused_ready};
use crate::sessions::block::{
    Apart, Block, BlockEnding, BlockState, begins_block, ending_of, is_error, read_apart,
};
use crate::stages::stage::Stage;
use bytes::BytesMut;
use frames::{Back, TransactionStatus};
use pqformat::{Text, put_byte, put_bytes};
use std::alloc::{AllocError, Global};

#[tactic(auto, using(pqformat::proofs::Putting::in_place), unfolding(crate::specs::Blocks::completed))]
fn say_completed_ready(alloc: Global, out: &mut BytesMut, tag: &str) -> Result<(), AllocError>
    requires { length tag.now ≤ 40 }
    ensures { Puts result out.old.items out.new.items (completed tag.now) }
{
    say_completed(alloc, out, tag)?;
    say_ready(out)
}

#[tactic(auto, using(pqformat::proofs::Putting::in_place), unfolding(crate::specs::Blocks::block_begun, pqformat::specs::Fields::int32))]
fn say_block_begun(alloc: Global, out: &mut BytesMut) -> Result<(), AllocError>
    ensures { Puts result out.old.items out.new.items block_begun }
{
    say_completed(alloc, out, "BEGIN")?;
    say(out, Back::ReadyForQuery(TransactionStatus::InTransaction))
}

fn new_block(database: Database) -> Block
    ensures { result ≡ new_block database }
{
    Block {
        database,
        state: BlockState::Begun,
        holds: false,
    }
}

/// Where it leads to that this was said.
pub(crate) fn led(said: Result<(), AllocError>, stage: Stage) -> Result<Stage, AllocError>
    ensures { result ≡ given said stage }
{
    match said {
        Ok(()) => Ok(stage),
        Err(fault) => Err(fault),
    }
}

/// Whether a snapshot is held once this was said.
fn held(said: Result<(), AllocError>, holds: bool) -> Result<bool, AllocError>
    ensures { result ≡ given said holds }
{
    match said {
        Ok(()) => Ok(holds),
        Err(fault) => Err(fault),
    }
}

/// Begins a block in a session on this database.
pub(crate) fn begin<D: Backend>(
    alloc: Global,
    database: Database,
    backend: &mut D,
    out: &mut BytesMut,
) -> Result<Stage, AllocError>
    ensures { (dialect : Dialect) (query : List ℕ) →
        Answered D.told result
        (λ next asked said. HearsQuery true dialect database query asked said next) backend.old
        out.old.items backend.new out.new.items }
{
    let said = say_block_begun(alloc, out);
    led(said, Stage::InBlock(new_block(database)))
}

/// Refuses a query, and tells that to the backend.
fn refuse<D: Backend>(
    alloc: Global,
    query: &str,
    refusal: Refusal,
    holds: bool,
    backend: &mut D,
    plain: &mut BytesMut,
) -> Result<bool, AllocError>
    ensures { (block : Block) → holds ≡ block.holds →
        Answered D.told result (λ held. Refused block refusal held) backend.old plain.old.items
        backend.new plain.new.items }
{
    backend.refused(query, refusal);
    let said = say_refused_ready(alloc, plain, refusal);
    held(said, holds)
}

/// Makes a slot with its snapshot, which the block uses; whether it is made.
fn make_with_snapshot<D: Backend>(
    alloc: Global,
    block: &Block,
    slot: &Text,
    backend: &mut D,
    plain: &mut BytesMut,
) -> Result<bool, AllocError>
    requires { length slot.now ≤ 63 }
    ensures { Answered D.told result
        (λ held. UsesSnapshot BlockState.Begun block.now slot.now held) backend.old plain.old.items
        backend.new plain.new.items }
{
    let answer = backend.create_with_snapshot(slot.as_str());
    let said = say_created(alloc, plain, slot.as_str(), answer);
    held(said, is_made(answer))
}

fn is_made(answer: Result<u64, BackendFault>) -> bool
    ensures { result ≡ is_made answer }
{
    answer.is_ok()
}

fn use_snapshot<D: Backend>(
    alloc: Global,
    block: &Block,
    query: &str,
    slot: &Text,
    backend: &mut D,
    plain: &mut BytesMut,
) -> Result<bool, AllocError>
    requires { length slot.now ≤ 63 }
    ensures { Answered D.told result
        (λ held. UsesSnapshot block.now.state block.now slot.now held) backend.old plain.old.items
        backend.new plain.new.items }
{
    match block.state {
        BlockState::Begun => make_with_snapshot(alloc, block, slot, backend, plain),
        BlockState::Used => refuse(alloc, query, Refusal::NotFirst, block.holds, backend, plain),
        BlockState::Failed => refuse(
            alloc,
            query,
            Refusal::BlockFailed,
            block.holds,
            backend,
            plain,
        ),
    }
}

/// Answers a query as outside of a block.
fn reply_plainly<D: Backend>(
    alloc: Global,
    block: &Block,
    query: &str,
    backend: &mut D,
    plain: &mut BytesMut,
) -> Result<bool, AllocError>
    ensures { Answered D.told result (λ held. Answers None block.now query.now held) backend.old
        plain.old.items backend.new plain.new.items }
{
    let answered = reply_in(
        alloc,
        Dialect::Questions,
        &block.database,
        query,
        backend,
        plain,
    );
    match answered {
        Ok(_) => Ok(block.holds),
        Err(fault) => Err(fault),
    }
}

/// Answers a command that a block answers by itself.
fn answer_apart<D: Backend>(
    alloc: Global,
    block: &Block,
    query: &str,
    apart: &Apart,
    backend: &mut D,
    plain: &mut BytesMut,
) -> Result<bool, AllocError>
    requires { HasShortSlot apart.now }
    ensures { Answered D.told result (λ held. AnswersApart apart.now block.now held) backend.old
        plain.old.items backend.new plain.new.items }
{
    match apart {
        Apart::Use(slot) => use_snapshot(alloc, block, query, slot, backend, plain),
        Apart::Export => refuse(
            alloc,
            query,
            Refusal::ExportInBlock,
            block.holds,
            backend,
            plain,
        ),
        Apart::Start => refuse(
            alloc,
            query,
            Refusal::StartInBlock,
            block.holds,
            backend,
            plain,
        ),
    }
}

/// Answers a query that begins no block.
fn answer_read<D: Backend>(
    alloc: Global,
    block: &Block,
    query: &str,
    apart: &Option<Apart>,
    backend: &mut D,
    plain: &mut BytesMut,
) -> Result<bool, AllocError>
    requires { HasShortUse apart.now }
    ensures { Answered D.told result (λ held. Answers apart.now block.now query.now held) backend.old
        plain.old.items backend.new plain.new.items }
{
    match apart {
        Some(apart) => answer_apart(alloc, block, query, apart, backend, plain),
        None => reply_plainly(alloc, block, query, backend, plain),
    }
}

fn answer_open<D: Backend>(
    alloc: Global,
    block: &Block,
    query: &str,
    backend: &mut D,
    plain: &mut BytesMut,
) -> Result<bool, AllocError>
    ensures { Answered D.told result
        (λ held. Begins (begins_block Dialect.Questions query.now) block.now query.now held)
        backend.old plain.old.items backend.new plain.new.items }
{
    if begins_block(Dialect::Questions, query) {
        let said = say_completed_ready(alloc, plain, "BEGIN");
        return held(said, block.holds);
    }
    let apart = read_apart(alloc, query)?;
    let answered = answer_read(alloc, block, query, &apart, backend, plain);
    // Let go before the way out, which keeps the proof short.
    drop(apart);
    answered
}

/// What is said to a query that doesn't end the block, as outside of one; whether a snapshot is held then.
fn answer_plainly<D: Backend>(
    alloc: Global,
    block: &Block,
    query: &str,
    backend: &mut D,
    plain: &mut BytesMut,
) -> Result<bool, AllocError>
    ensures { Answered D.told result (λ held. Says block.now.state block.now query.now held)
        backend.old plain.old.items backend.new plain.new.items }
{
    match block.state {
        BlockState::Failed => refuse(
            alloc,
            query,
            Refusal::BlockFailed,
            block.holds,
            backend,
            plain,
        ),
        BlockState::Begun | BlockState::Used => answer_open(alloc, block, query, backend, plain),
    }
}

fn without_last(plain: &[u8]) -> &[u8]
    ensures { result.now ≡ take (length plain.now - 1) plain.now }
{
    &plain[..plain.len().saturating_sub(1)]
}

/// Says a plain answer as a block does.
#[tactic(auto, using(pqformat::proofs::Putting::in_place), unfolding(crate::specs::Blocks::told_in_block))]
pub(crate) fn say_in_block(out: &mut BytesMut, plain: &[u8]) -> Result<(), AllocError>
    ensures { Puts result out.old.items out.new.items (told_in_block plain.now) }
{
    let letter = if is_error(plain) { b'E' } else { b'T' };
    put_bytes(out, without_last(plain))?;
    put_byte(out, letter)
}

/// The block that was answered this.
fn block_after(block: Block, holds: bool, plain: &[u8]) -> Block
    ensures { result ≡ block_after block holds plain.now }
{
    let state = match is_error(plain) {
        true => BlockState::Failed,
        false => BlockState::Used,
    };
    Block {
        database: block.database,
        state,
        holds,
    }
}

/// Says what was answered as the block does, and which one it is then.
#[tactic(auto, using(pqformat::proofs::Putting::in_place))]
fn settle(
    block: Block,
    answered: Result<bool, AllocError>,
    plain: &[u8],
    out: &mut BytesMut,
) -> Result<Stage, AllocError>
    ensures { Settles block answered plain.now result out.old.items out.new.items }
{
    let holds = answered?;
    say_in_block(out, plain)?;
    Ok(Stage::InBlock(block_after(block, holds, plain)))
}

/// Answers a query that neither ends the block nor asks for a copy.
pub(crate) fn go_on<D: Backend>(
    alloc: Global,
    block: Block,
    query: &str,
    backend: &mut D,
    out: &mut BytesMut,
) -> Result<Stage, AllocError>
    ensures { Answered D.told result (λ next asked said. Goes block query.now asked said next)
        backend.old out.old.items backend.new out.new.items }
{
    let mut plain = BytesMut::new(alloc);
    let answered = answer_plainly(alloc, &block, query, backend, &mut plain);
    let settled = settle(block, answered, plain.as_slice(), out);
    // Let go by one call, which keeps the proof short.
    drop(plain);
    settled
}

/// Lets the snapshot go that is held.
fn let_go<D: Backend>(holds: bool, backend: &mut D)
    ensures { AreAsked D.told backend.old (let_go holds) backend.new }
{
    if holds {
        backend.release_snapshot();
    }
}

/// Ends the block.
fn end<D: Backend>(
    alloc: Global,
    block: Block,
    ending: BlockEnding,
    backend: &mut D,
    out: &mut BytesMut,
) -> Result<Stage, AllocError>
    ensures { Answered D.told result (λ next asked said. Ends block ending asked said next)
        backend.old out.old.items backend.new out.new.items }
{
    let_go(block.holds, backend);
    let said = say_completed_ready(alloc, out, ending.tag(block.state));
    led(said, Stage::Idle(block.database))
}

/// Answers a query in a block.
pub(crate) fn answer_in_block<D: Backend>(
    alloc: Global,
    block: Block,
    query: &str,
    backend: &mut D,
    out: &mut BytesMut,
) -> Result<Stage, AllocError>
    ensures { Answered D.told result
        (λ next asked said. AnswersIn (ending_of query.now) block query.now asked said next)
        backend.old out.old.items backend.new out.new.items }
{
    match ending_of(query) {
        Some(ending) => end(alloc, block, ending, backend, out),
        None => answer_unended(alloc, block, query, backend, out),
    }
}
