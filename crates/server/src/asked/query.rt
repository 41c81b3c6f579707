//! Queries: the command that a text spells, what it asks of the backend, and its answer.

ghost use Rattle.std.specs.Prelude.{◌≡◌, ◌≤◌, length, false};
ghost use Rattle.server.specs.Conversation.{Answered, Makes, MakesSlot, RefusesUse, Runs, Replies, HasShortSlot, is_ok, why_of};
ghost use Rattle.replcmd.specs.declared.command.Command.TheVariants.{Identify, Start, Drop};

use crate::asked::database::Database;
use crate::asked::refused_query::{refusal_text, say_refused_with};
use crate::backend::Backend;
use crate::backend_fault::BackendFault;
use crate::refusal::Refusal;
use crate::said::say::{say_created, say_dropped, say_identified, say_refused_ready};
use crate::said::starting::say_started;
use bytes::BytesMut;
use pqformat::Text;
use replcmd::{CmdFault, Command, SnapshotClause, StreamOptions, Strictness, parse_command};
use std::alloc::{AllocError, Global};

fn identify<D: Backend>(
    alloc: Global,
    database: &Database,
    backend: &mut D,
    out: &mut BytesMut,
) -> Result<(), AllocError>
    ensures { Answered D.told result (λ _. Runs database.now Identify false) backend.old out.old.items
        backend.new out.new.items }
{
    let end = backend.end();
    say_identified(alloc, out, backend.systemid(), end, database.as_str())
}

fn make_slot<D: Backend>(
    alloc: Global,
    slot: &Text,
    backend: &mut D,
    out: &mut BytesMut,
) -> Result<(), AllocError>
    requires { length slot.now ≤ 63 }
    ensures { Answered D.told result (λ _. MakesSlot slot.now) backend.old out.old.items backend.new
        out.new.items }
{
    let answer = backend.create(slot.as_str());
    say_created(alloc, out, slot.as_str(), answer)
}

/// Refuses a slot whose snapshot is to be used by a transaction, where there is none, and tells that to the backend.
fn refuse_use<D: Backend>(
    alloc: Global,
    query: &str,
    backend: &mut D,
    out: &mut BytesMut,
) -> Result<(), AllocError>
    ensures { Answered D.told result (λ _. RefusesUse) backend.old out.old.items backend.new
        out.new.items }
{
    backend.refused(query, Refusal::NoTransaction);
    say_refused_ready(alloc, out, Refusal::NoTransaction)
}

/// Makes a slot. No snapshot of it is named.
fn create<D: Backend>(
    alloc: Global,
    query: &str,
    slot: &Text,
    snapshot: SnapshotClause,
    backend: &mut D,
    out: &mut BytesMut,
) -> Result<(), AllocError>
    requires { length slot.now ≤ 63 }
    ensures { Answered D.told result (λ _. Makes slot.now snapshot) backend.old out.old.items
        backend.new out.new.items }
{
    match snapshot {
        SnapshotClause::Export | SnapshotClause::Nothing => make_slot(alloc, slot, backend, out),
        SnapshotClause::Use => refuse_use(alloc, query, backend, out),
    }
}

fn drop_slot<D: Backend>(
    alloc: Global,
    database: &Database,
    slot: &Text,
    backend: &mut D,
    out: &mut BytesMut,
) -> Result<(), AllocError>
    ensures { Answered D.told result (λ _. Runs database.now (Drop slot.now) false) backend.old
        out.old.items backend.new out.new.items }
{
    let answer = backend.drop_slot(slot.as_str());
    say_dropped(alloc, out, slot.as_str(), answer)
}

/// Whether a stream has begun.
fn start<D: Backend>(
    alloc: Global,
    database: &Database,
    slot: &Text,
    position: u64,
    options: &StreamOptions,
    backend: &mut D,
    out: &mut BytesMut,
) -> Result<bool, AllocError>
    ensures { Answered D.told result
        (λ begun. Runs database.now (Start slot.now position options.now) begun) backend.old
        out.old.items backend.new out.new.items }
{
    let answer = backend.start(slot.as_str(), position, options);
    let begun = has_begun(answer);
    say_started(
        alloc,
        out,
        slot.as_str(),
        options.publications.as_slice(),
        answer,
    )?;
    Ok(begun)
}

fn has_begun(answer: Result<(), BackendFault>) -> bool
    ensures { result ≡ is_ok answer }
{
    answer.is_ok()
}

/// Carries out the command that a query spells; whether a stream has begun.
fn run<D: Backend>(
    alloc: Global,
    database: &Database,
    query: &str,
    command: &Command,
    backend: &mut D,
    out: &mut BytesMut,
) -> Result<bool, AllocError>
    requires { HasShortSlot command.now }
    ensures { Answered D.told result (λ begun. Runs database.now command.now begun) backend.old
        out.old.items backend.new out.new.items }
{
    match command {
        Command::Identify => {
            identify(alloc, database, backend, out)?;
            Ok(false)
        }
        Command::Create { slot, snapshot } => {
            create(alloc, query, slot, *snapshot, backend, out)?;
            Ok(false)
        }
        Command::Drop { slot } => {
            drop_slot(alloc, database, slot, backend, out)?;
            Ok(false)
        }
        Command::Start { slot, at, options } => {
            start(alloc, database, slot, *at, options, backend, out)
        }
    }
}

/// Why a text is refused that is no command.
fn why(is_question: bool, fault: CmdFault) -> Refusal
    ensures { result ≡ why_of is_question fault }
{
    match is_question {
        true => Refusal::Question(fault),
        false => Refusal::Command(fault),
    }
}

/// Answers the text of a Query (PostgreSQL 15, 55.2.2) in a session on this database, where questions are not answered, or it
/// is none; whether a stream has begun, and with it no query is waited for. Commands are read so strictly.
///
/// A command makes its calls of the backend, each once. A text that is none makes no call: it is refused by the code of its
/// fault, and the next query is waited for.
pub(crate) fn reply<D: Backend>(
    alloc: Global,
    strictness: Strictness,
    database: &Database,
    query: &str,
    is_question: bool,
    backend: &mut D,
    out: &mut BytesMut,
) -> Result<bool, AllocError>
    ensures { Answered D.told result
        (λ begun. Replies strictness (why_of is_question) database.now query.now begun) backend.old out.old.items
        backend.new out.new.items }
{
    match parse_command(alloc, strictness, query) {
        Ok(command) => {
            let answered = run(alloc, database, query, &command, backend, out);
            // Let go by one call, which keeps the proof short.
            drop(command);
            answered
        }
        Err(fault) => {
            let refusal = why(is_question, fault);
            backend.refused(query, refusal);
            let text = refusal_text(alloc, refusal, query)?;
            say_refused_with(alloc, out, refusal, text.as_str())?;
            Ok(false)
        }
    }
}
