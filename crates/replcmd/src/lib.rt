//! The texts of the replication protocol: positions of the log, the commands that a client sends, and texts in quotes.
//!
//! `parse_command` reads a text as `Command`, or answers what is wrong with it; a file for each command (`commands/identify.rt`,
//! `commands/create.rt`, `commands/drop_slot.rt`, `commands/start.rt`), over the tokens of `text/lexer.rt`. `text/position.rt` reads and writes a place of the log
//! (`0/16B3748`), `clauses/setting.rt` the options of a stream.
//!
//! Read `command.rt`, then `commands/start.rt`. Above, one contract is used: a text is a command exactly if it spells one, it spells no
//! two (`no_text_spells_two_commands`), and else the fault is the one that PostgreSQL's order of reading meets first.
#![tactic(auto)]

mod clauses;
mod command;
mod commands;
mod fault;
mod text;

pub use clauses::publications::names_of;
pub use clauses::setting::StreamOptions;
pub use clauses::snapshot_clause::SnapshotClause;
pub use clauses::strictness::Strictness;
pub use clauses::unrecognized::unrecognized_option;
pub use command::{Command, no_text_spells_two_commands, parse_command};
pub use fault::{CmdFault, OptionFault, Unserved};
pub use text::lexer::quoted_of;
pub use text::position::{parse_position, write_position};
pub use text::words::{MOST_SLOT_NAME_BYTES, is_slot_name};
