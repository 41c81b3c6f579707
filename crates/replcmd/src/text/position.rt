//! Positions of the log as text: read in every spelling, written in one.

ghost use Rattle.std.specs.Prelude.{◌≡◌, ℕ, Ok, IfOk, IfErr, MatchOption, string_bytes};
ghost use Rattle.std.specs.Str.Parse.{digits_value};
ghost use Rattle.replcmd.specs.Position.{IsHalf, SpellsPosition, position_text};
ghost use Rattle.replcmd.specs.Reading.{position_of};

use crate::fault::CmdFault;
use std::alloc::{AllocError, Global};

/// The position that the text spells, all of it, as `16/B374D848` does (PostgreSQL 15, 8.20); a text that spells none is
/// `BadPosition` (C3).
pub fn parse_position(text: &str) -> Result<u64, CmdFault>
    ensures found { IfOk result (λ n. SpellsPosition text.now n) }
    ensures only { (n : ℕ) → SpellsPosition text.now n → result ≡ Ok n }
    ensures fault { IfErr result (λ e. e ≡ CmdFault.BadPosition) }
{
    let (upper, lower) = text.split_once('/').ok_or(CmdFault::BadPosition)?;
    let upper = half(upper).ok_or(CmdFault::BadPosition)?;
    let lower = half(lower).ok_or(CmdFault::BadPosition)?;
    Ok(upper as u64 * (1 << 32) + lower as u64)
}

/// The position that the text spells, if it spells one.
#[tactic(auto, using(crate::proofs::Places::position_told))]
pub(crate) fn position_of(text: &str) -> Option<u64>
    ensures { result ≡ position_of text.now }
{
    parse_position(text).ok()
}

/// The 32 bits that 1 to 8 hexadecimal digits spell.
fn half(text: &str) -> Option<u32>
    ensures { MatchOption result (¬ IsHalf text.now)
        (λ n. IsHalf text.now × (n ≡ digits_value 16 text.now)) }
{
    if text.len() > 8 || text.starts_with('+') {
        return None;
    }
    u32::from_str_radix(text, 16).ok()
}

/// The text of the position, in upper case and without leading zeros. `AllocError` where memory for it is refused.
pub fn write_position(alloc: Global, position: u64) -> Result<String, AllocError>
    ensures text { IfOk result (λ s. string_bytes s ≡ position_text position) }
    ensures read_again { IfOk result (λ s. SpellsPosition (string_bytes s) position) }
{
    text_of(alloc, position)
}

fn text_of(alloc: Global, position: u64) -> Result<String, AllocError>
    ensures { IfOk result (λ s. string_bytes s ≡ position_text position) }
{
    let upper = position / (1 << 32);
    let lower = position % (1 << 32);
    format!(in alloc; "{upper:X}/{lower:X}")
}
