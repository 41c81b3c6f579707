//! IDENTIFY_SYSTEM.

ghost use Rattle.replcmd.specs.Commands.{identify_at};
ghost use Rattle.replcmd.specs.Reading.{Answers};

use crate::command::Command;
use crate::fault::CmdFault;
use crate::text::tokens::Tokens;
use crate::text::verb::Verb;

/// Nothing follows the first word (PostgreSQL 15, 55.4).
///
/// ```text
/// IDENTIFY_SYSTEM
/// ```
pub(crate) fn identify_of(tokens: &mut Tokens<'_>) -> Result<Command, CmdFault>
    ensures { Answers result (identify_at tokens.old) }
{
    tokens.end(Verb::Identify)?;
    Ok(Command::Identify)
}
