//! DROP_REPLICATION_SLOT.

ghost use Rattle.replcmd.specs.Commands.{drop_at};
ghost use Rattle.replcmd.specs.Reading.{Answers};

use crate::command::Command;
use crate::fault::CmdFault;
use crate::text::tokens::Tokens;
use crate::text::verb::Verb;
use std::alloc::Global;

/// What follows the first word (PostgreSQL 15, 55.4). WAIT is left out.
///
/// ```text
/// DROP_REPLICATION_SLOT slot
/// ```
#[tactic(auto, unfolding(crate::specs::Commands::drop_at))]
pub(crate) fn drop_of(alloc: Global, tokens: &mut Tokens<'_>) -> Result<Command, CmdFault>
    ensures { Answers result (drop_at tokens.old) }
{
    let slot = tokens.slot(alloc)?;
    tokens.end(Verb::Drop)?;
    Ok(Command::Drop { slot })
}
