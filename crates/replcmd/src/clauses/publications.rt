//! The value of publication_names: the names of publications with commas between them, and blanks round each.

ghost use Rattle.std.specs.Str.{IsUtf8};
ghost use Rattle.replcmd.specs.Reading.{Answers, LendsName, front_name, names_of};

use crate::fault::{CmdFault, OptionFault};
use crate::text::lexer::{after_blanks, token_of};
use crate::text::token::COMMA;
use crate::text::tokens::name_of;
use pqformat::{Items, Text};
use std::alloc::Global;

/// The fault of a text that is no list of names.
const NO_NAMES: CmdFault = CmdFault::BadOption(OptionFault::PublicationNames);

/// The names that the text spells, one at least, as START_REPLICATION reads `publication_names` (PostgreSQL 15, 55.5.1). `BadOption`
/// (C5) where it spells none, `Memory` (C6).
#[tactic(auto, unfolding(crate::specs::Reading::names_of))]
pub fn names_of(alloc: Global, text: &str) -> Result<Items<Text>, CmdFault>
    ensures { Answers result (names_of text.now) }
{
    let mut names = Vec::new(alloc);
    let mut place = text.as_bytes();
    loop {
        let (name, behind) = front_name(alloc, place)?;
        names.push(name)?;
        let Some((b, rest)) = after_blanks(behind).split_first() else {
            return Ok(Items::new(names));
        };
        if *b != COMMA {
            return Err(NO_NAMES);
        }
        place = rest;
    }
}

/// The name at the front, and what follows it.
#[tactic(auto, unfolding(crate::specs::Reading::front_name))]
fn front_name(alloc: Global, text: &[u8]) -> Result<(Text, &[u8]), CmdFault>
    requires { IsUtf8 text.now }
    ensures { LendsName result (front_name text.now) }
{
    let (token, rest) = token_of(alloc, text)?.ok_or(NO_NAMES)?;
    let name = name_of(alloc, &token)?.ok_or(NO_NAMES)?;
    Ok((name, rest))
}
