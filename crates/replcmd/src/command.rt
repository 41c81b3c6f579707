//! The commands of the replication protocol, and their reader.

ghost use Rattle.std.specs.Prelude.{◌≡◌, ℕ, List, Ok, IfOk};
ghost use Rattle.replcmd.specs.Grammar.{SpellsCommand};
ghost use Rattle.replcmd.specs.Commands.{Tells, command_at};
ghost use Rattle.replcmd.specs.Reading.{Answers};

use crate::clauses::setting::StreamOptions;
use crate::clauses::snapshot_clause::SnapshotClause;
use crate::clauses::strictness::Strictness;
use crate::commands::create::create_of;
use crate::commands::drop_slot::drop_of;
use crate::commands::identify::identify_of;
use crate::commands::start::start_of;
use crate::fault::CmdFault;
use crate::text::lexer::tokens_of;
use crate::text::tokens::Tokens;
use crate::text::verb::Verb;
use pqformat::Text;
use std::alloc::Global;

/// A command of the streaming replication protocol (PostgreSQL 15, 55.4).
#[derive(Debug, Drop)]
pub enum Command {
    /// `IDENTIFY_SYSTEM`
    Identify,
    /// `CREATE_REPLICATION_SLOT slot LOGICAL pgoutput ( SNAPSHOT 'snapshot' )`
    Create {
        slot: Text,
        snapshot: SnapshotClause,
    },
    /// `START_REPLICATION SLOT slot LOGICAL at (proto_version '1', publication_names 'publications', messages 'messages')`
    Start {
        slot: Text,
        at: u64,
        options: StreamOptions,
    },
    /// `DROP_REPLICATION_SLOT slot`
    Drop {
        slot: Text,
    },
}

/// The command that the text spells, all of it; among all commands, or those alone that are served as they ask.
///
/// The leftmost fault is answered: `Syntax` (C1) where the words are none of a command, `BadName` (C2) at a name that no slot
/// can have, `BadPosition` (C3) at a word that is no position, `Unsupported` (C4) at what is left out here, `BadOption` (C5) at
/// an option or a value that isn't known; and after all those `BadOption` where an option stands twice or is missing. Or
/// `Memory` (C6).
pub fn parse_command(alloc: Global, strictness: Strictness, text: &str) -> Result<Command, CmdFault>
    // What is read is spelled so.
    ensures found { IfOk result (λ c. SpellsCommand strictness text.now c) }
    // What is spelled is read, unless memory runs out.
    ensures only { (c : Command) → SpellsCommand strictness text.now c → Answers result (Ok c) }
    // Which fault it is, in the order in which the tokens are judged.
    ensures exact { Tells strictness text.now result }
{
    command_of(alloc, strictness, text)
}

fn command_of(alloc: Global, strictness: Strictness, text: &str) -> Result<Command, CmdFault>
    ensures { Tells strictness text.now result }
{
    let tokens = tokens_of(alloc, text.as_bytes())?;
    whole(alloc, strictness, Tokens::new(tokens.as_slice()))
}

#[tactic(auto, unfolding(crate::specs::Commands::command_at))]
fn whole(alloc: Global, strictness: Strictness, mut tokens: Tokens<'_>) -> Result<Command, CmdFault>
    ensures { Answers result (command_at strictness tokens.entry) }
{
    match tokens.verb()? {
        Verb::Identify => identify_of(&mut tokens),
        Verb::Create => create_of(alloc, strictness, &mut tokens),
        Verb::Drop => drop_of(alloc, &mut tokens),
        Verb::Start => start_of(alloc, strictness, &mut tokens),
    }
}

/// The law of the grammar: a text spells one command at most.
pub fn no_text_spells_two_commands()
    ensures { (strictness : Strictness) (text : List ℕ) (c d : Command) →
        SpellsCommand strictness text c → SpellsCommand strictness text d → c ≡ d }
{}
