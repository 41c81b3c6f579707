//! CREATE_REPLICATION_SLOT.

ghost use Rattle.replcmd.specs.Commands.{create_at, ending_at, plugin_at};
ghost use Rattle.replcmd.specs.Reading.{Answers, Gives, Moves};

use crate::clauses::slot_options::slot_options_of;
use crate::clauses::snapshot_clause::SnapshotClause;
use crate::clauses::strictness::Strictness;
use crate::command::Command;
use crate::fault::CmdFault;
use crate::text::token::OPEN;
use crate::text::tokens::Tokens;
use crate::text::verb::Verb;
use std::alloc::Global;

/// What follows the first word (PostgreSQL 15, 55.4). Read strictly, no snapshot may be asked for by a word.
///
/// ```text
/// CREATE_REPLICATION_SLOT slot LOGICAL pgoutput
///     [ EXPORT_SNAPSHOT | NOEXPORT_SNAPSHOT | USE_SNAPSHOT | ( option [, ...] ) ]
/// ```
#[tactic(auto, unfolding(crate::specs::Commands::create_at))]
pub(crate) fn create_of(
    alloc: Global,
    strictness: Strictness,
    tokens: &mut Tokens<'_>,
) -> Result<Command, CmdFault>
    ensures { Answers result (create_at strictness tokens.old) }
{
    let slot = tokens.slot(alloc)?;
    tokens.keyword(Verb::Create, "LOGICAL")?;
    plugin_of(alloc, tokens)?;
    let snapshot = ending_of(strictness, tokens)?;
    tokens.end(Verb::Create)?;
    Ok(Command::Create { slot, snapshot })
}

/// The one plugin; another one is C4.
#[tactic(auto, unfolding(crate::specs::Commands::plugin_at))]
fn plugin_of(alloc: Global, tokens: &mut Tokens<'_>) -> Result<(), CmdFault>
    ensures { Moves result tokens.new (plugin_at tokens.old) }
{
    let name = tokens.name(alloc)?;
    if name.as_str() == "pgoutput" {
        return Ok(());
    }
    Err(CmdFault::Unsupported)
}

#[tactic(auto, unfolding(crate::specs::Commands::ending_at))]
fn ending_of(strictness: Strictness, tokens: &mut Tokens<'_>) -> Result<SnapshotClause, CmdFault>
    ensures { Gives result tokens.new (ending_at strictness tokens.old) }
{
    if tokens.takes(OPEN) {
        return slot_options_of(strictness, tokens);
    }
    Ok(tokens.snapshot(strictness))
}
