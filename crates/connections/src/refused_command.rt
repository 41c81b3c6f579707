//! A command that was refused, for whoever runs the server.

use pqformat::Text;
use server::{BackendFault, Refusal};
use std::fmt;

/// How many publications are told of, and how many bytes of each: PostgreSQL's names have no more (PostgreSQL 15, 4.1.1).
const MOST_NAMES: usize = 8;

const MOST_BYTES: usize = 63;

/// How many characters of a text are told.
const MOST_CHARACTERS: usize = 200;

/// What a client asked for that was refused, which the answer to it has no place for.
#[derive(Drop)]
pub enum RefusedCommand<'a> {
    /// A text that is no command, or none that is served, or a question.
    Text(&'a str, Refusal),
    /// A command, by its first word, of a slot.
    OfSlot(&'static str, &'a str, BackendFault),
    /// A START of a slot and of publications.
    Start(&'a str, &'a [Text], BackendFault),
}

impl<'a> fmt::Display for RefusedCommand<'a> {
    fn fmt<W: fmt::Write>(&self, f: &mut fmt::Formatter<W>) -> fmt::Result {
        match self {
            RefusedCommand::Text(text, refusal) => {
                write_text(f, text)?;
                write!(f, ": {refusal}")
            }
            RefusedCommand::OfSlot(command, slot, fault) => {
                write!(f, "{command} of slot {slot}: {fault}")
            }
            RefusedCommand::Start(slot, names, fault) => write_start(f, slot, names, *fault),
        }
    }
}

fn write_text<W: fmt::Write>(f: &mut fmt::Formatter<W>, text: &str) -> fmt::Result {
    for character in text.chars().take(MOST_CHARACTERS) {
        write!(f, "{}", character.escape_debug())?;
    }
    Ok(())
}

fn write_start<W: fmt::Write>(
    f: &mut fmt::Formatter<W>,
    slot: &str,
    names: &[Text],
    fault: BackendFault,
) -> fmt::Result {
    write!(f, "START_REPLICATION of slot {slot}")?;
    write_names(f, names)?;
    write!(f, ": {fault}")
}

fn write_names<W: fmt::Write>(f: &mut fmt::Formatter<W>, names: &[Text]) -> fmt::Result {
    for name in names.iter().take(MOST_NAMES) {
        let name = name.as_str();
        if name.len() <= MOST_BYTES {
            write!(f, ", publication {name:?}")?;
        }
    }
    Ok(())
}
