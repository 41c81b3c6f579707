//! By which text a query is refused that is no command.

ghost use Rattle.std.specs.Prelude.{◌≡◌, ◌≤◌, length, option_copied, string_bytes, IfOk};
ghost use Rattle.pqformat.specs.Putting.{Puts};
ghost use Rattle.server.specs.Refusals.{TellsRefusal, unrecognized_text};
ghost use Rattle.server.specs.Said.{refused_with};

use crate::asked::naming::MOST_NAME_BYTES;
use crate::refusal::Refusal;
use crate::said::say::{say_error, say_ready};
use bytes::BytesMut;
use replcmd::{CmdFault, OptionFault, unrecognized_option};
use std::alloc::{AllocError, Global};

/// That a query is refused by this text, and that the next command is waited for.
#[tactic(auto, using(pqformat::proofs::Putting::in_place), unfolding(crate::specs::Said::refused_with))]
pub(crate) fn say_refused_with(
    alloc: Global,
    out: &mut BytesMut,
    refusal: Refusal,
    text: &str,
) -> Result<(), AllocError>
    requires { length text.now ≤ 120 }
    ensures { Puts result out.old.items out.new.items (refused_with refusal text.now) }
{
    let (code, _plain) = refusal.told();
    say_error(alloc, out, code, text)?;
    say_ready(out)
}

/// The text by which this query is refused: an option that isn't known is named (PostgreSQL 15, 55.5).
pub(crate) fn refusal_text(
    alloc: Global,
    refusal: Refusal,
    query: &str,
) -> Result<String, AllocError>
    ensures text { IfOk result (λ t. TellsRefusal refusal query.now (string_bytes t)) }
    ensures short { IfOk result (λ t. length (string_bytes t) ≤ 120) }
{
    match refusal {
        Refusal::Command(CmdFault::BadOption(OptionFault::Unrecognized)) => {
            let name = unrecognized_option(alloc, query)?;
            match &name {
                Some(name) => unrecognized_text(alloc, Some(name.as_str())),
                None => unrecognized_text(alloc, None),
            }
        }
        _ => {
            let (_code, text) = refusal.told();
            String::from_str(alloc, text)
        }
    }
}

fn unrecognized_text(alloc: Global, name: Option<&str>) -> Result<String, AllocError>
    ensures text { IfOk result
        (λ t. string_bytes t ≡ unrecognized_text (option_copied name.entry)) }
    ensures short { IfOk result (λ t. length (string_bytes t) ≤ 120) }
{
    let mut text = String::from_str(alloc, "unrecognized pgoutput option")?;
    if let Some(name) = name
        && name.len() <= MOST_NAME_BYTES
    {
        text.push_str(": ")?;
        text.push_str(name)?;
    }
    Ok(text)
}
