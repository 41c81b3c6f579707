//! START_REPLICATION.

ghost use Rattle.replcmd.specs.Commands.{start_at};
ghost use Rattle.replcmd.specs.Reading.{Answers};

use crate::clauses::setting::{gathered, options_of};
use crate::clauses::strictness::Strictness;
use crate::command::Command;
use crate::fault::CmdFault;
use crate::text::tokens::Tokens;
use crate::text::verb::Verb;
use std::alloc::Global;

/// What follows the first word (PostgreSQL 15, 55.4). The options stand in any order, none twice.
///
/// ```text
/// START_REPLICATION SLOT slot LOGICAL position ( option 'value' [, ...] )
/// ```
#[tactic(auto, unfolding(crate::specs::Commands::start_at))]
pub(crate) fn start_of(
    alloc: Global,
    strictness: Strictness,
    tokens: &mut Tokens<'_>,
) -> Result<Command, CmdFault>
    ensures { Answers result (start_at strictness tokens.old) }
{
    tokens.keyword(Verb::Start, "SLOT")?;
    let slot = tokens.slot(alloc)?;
    tokens.keyword(Verb::Start, "LOGICAL")?;
    let at = tokens.position()?;
    let settings = options_of(alloc, strictness, tokens)?;
    tokens.end(Verb::Start)?;
    let options = gathered(settings)?;
    Ok(Command::Start { slot, at, options })
}
