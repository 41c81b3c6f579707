//! The name for which START_REPLICATION is refused, where it names an option that isn't known.

ghost use Rattle.std.specs.Prelude.{◌≡◌, IfOk};
ghost use Rattle.replcmd.specs.Unrecognized.{Unrecognized, first_unrecognized, is_option};

use crate::clauses::setting::unserved_of;
use crate::text::lexer::tokens_of;
use crate::text::token::Token;
use crate::text::tokens::name_of;
use pqformat::Text;
use std::alloc::{AllocError, Global};

/// How many tokens stand before the first option: two words, the slot, a word, the position, and the bracket.
const BEFORE_OPTIONS: usize = 6;

/// The name in a text for which `parse_command` answers that an option is unrecognized (C5): the first one in its list of
/// options that no option has. None where there is no such name. `AllocError` where memory is refused.
pub fn unrecognized_option(alloc: Global, text: &str) -> Result<Option<Text>, AllocError>
    ensures { IfOk result (λ name. Unrecognized text.now name) }
{
    let tokens = tokens_of(alloc, text.as_bytes())?;
    match tokens.as_slice().get(BEFORE_OPTIONS..) {
        Some(options) => first_unrecognized(alloc, options),
        None => Ok(None),
    }
}

fn first_unrecognized(alloc: Global, tokens: &[Token]) -> Result<Option<Text>, AllocError>
    ensures { IfOk result (λ name. name ≡ first_unrecognized tokens.now) }
{
    let mut rest = tokens;
    while let Some((token, others)) = rest.split_first() {
        if let Some(name) = name_of(alloc, token)?
            && !is_option(name.as_str())
        {
            return Ok(Some(name));
        }
        rest = others;
    }
    Ok(None)
}

/// Whether an option has this name, be it served or not.
fn is_option(name: &str) -> bool
    ensures { result ≡ is_option name.now }
{
    name == "proto_version"
        || name == "publication_names"
        || name == "messages"
        || unserved_of(name).is_some()
}
