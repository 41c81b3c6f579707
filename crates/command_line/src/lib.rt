//! What the programs have in common: the words of a command line, and how a program ends.
//!
//! `CommandLine::of` reads options and words by their forms (`words.rt`), `help.rt` writes what `--help` prints, and `ended`
//! turns how a program ended into its status and a line on standard error.
//!
//! Read `words.rt`, then `ending.rt`. Above, the programs state no contract of it: what a command line means is shown by
//! tests/readme and the manuals.
#![tactic(auto)]

mod arguments;
mod ending;
mod fault;
mod help;
mod words;

pub use arguments::arguments_of;
pub use ending::{Ending, ended};
pub use fault::WordsFault;
pub use words::{CommandLine, Word, WordForm, address_of, count_of};
