//! Transaction blocks of a session (PostgreSQL 15, 13.2.2 and 55.4): how far one is, which texts begin and end it, and which
//! commands it answers by itself.

ghost use Rattle.std.specs.Prelude.{◌≡◌, ◌≢◌, ◌≤◌, None, length, IfOk};
ghost use Rattle.server.specs.Blocks.{apart_of, begins_block, ending_of, ending_tag, is_error, HasShortUse, ReadsApart};

use crate::asked::database::Database;
use crate::connection_terms::Dialect;
use frames::ERROR_RESPONSE;
use pqformat::Text;
use replcmd::{CmdFault, Command, SnapshotClause, Strictness, parse_command};
use std::alloc::{AllocError, Global};

/// How far a transaction block is.
#[derive(Clone, Copy, Debug, PartialEq, Eq)]
pub enum BlockState {
    /// No query was answered in it.
    Begun,
    /// At least one was.
    Used,
    /// One was refused: all is, up to its end.
    Failed,
}

/// The transaction block of a session on this database, and whether a slot's snapshot is held for it.
#[derive(Drop)]
pub struct Block {
    pub(crate) database: Database,
    pub(crate) state: BlockState,
    pub(crate) holds: bool,
}

impl Block {
    /// The same block in this state.
    pub(crate) fn with_state(self, state: BlockState) -> Block
        ensures { result ≡ record { database = self.database; state = state; holds = self.holds } }
    {
        Block {
            database: self.database,
            state,
            holds: self.holds,
        }
    }
}

/// What ends a block.
#[derive(Clone, Copy, Debug, PartialEq, Eq)]
pub enum BlockEnding {
    Commit,
    Rollback,
}

impl BlockEnding {
    /// What is said of a block in this state that is ended so: one that failed is rolled back.
    pub(crate) fn tag(self, state: BlockState) -> &'static str
        ensures tag { result.now ≡ ending_tag state self }
        ensures short { length result.now ≤ 40 }
    {
        match (state, self) {
            (BlockState::Begun | BlockState::Used, BlockEnding::Commit) => "COMMIT",
            _ => "ROLLBACK",
        }
    }
}

/// A command that a block answers by itself.
#[derive(Drop)]
pub enum Apart {
    /// A slot, whose snapshot the block uses.
    Use(Text),
    /// A slot, whose snapshot is exported.
    Export,
    /// A stream.
    Start,
}

/// Whether the text begins a block.
pub(crate) fn begins_block(dialect: Dialect, text: &str) -> bool
    ensures { result ≡ begins_block dialect text.now }
{
    match dialect {
        Dialect::Commands => false,
        Dialect::Questions => text == "BEGIN READ ONLY ISOLATION LEVEL REPEATABLE READ",
    }
}

/// How the text ends one, if it does.
pub(crate) fn ending_of(text: &str) -> Option<BlockEnding>
    ensures { result ≡ ending_of text.now }
{
    if text == "COMMIT" {
        return Some(BlockEnding::Commit);
    }
    if text == "ROLLBACK" {
        return Some(BlockEnding::Rollback);
    }
    None
}

fn apart_of(command: Command) -> Option<Apart>
    ensures { result ≡ apart_of command }
{
    match command {
        Command::Create {
            slot,
            snapshot: SnapshotClause::Use,
        } => Some(Apart::Use(slot)),
        Command::Create {
            slot: _,
            snapshot: SnapshotClause::Export,
        } => Some(Apart::Export),
        Command::Start { .. } => Some(Apart::Start),
        _ => None,
    }
}

fn none_unless_memory(fault: CmdFault) -> Result<Option<Apart>, AllocError>
    ensures { IfOk result (λ found. (found ≡ None) × (fault ≢ CmdFault.Memory)) }
{
    match fault {
        CmdFault::Memory => Err(AllocError),
        _ => Ok(None),
    }
}

/// The command of this text that a block answers by itself. `AllocError` where memory is refused.
pub(crate) fn read_apart(alloc: Global, text: &str) -> Result<Option<Apart>, AllocError>
    ensures read { IfOk result (λ found. ReadsApart text.now found) }
    ensures short { IfOk result HasShortUse }
{
    match parse_command(alloc, Strictness::Lenient, text) {
        Ok(command) => Ok(apart_of(command)),
        Err(fault) => none_unless_memory(fault),
    }
}

/// Whether what was said is an ErrorResponse first.
pub(crate) fn is_error(said: &[u8]) -> bool
    ensures { result ≡ is_error said.now }
{
    match said.first() {
        Some(kind) => *kind == ERROR_RESPONSE,
        None => false,
    }
}
