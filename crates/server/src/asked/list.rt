//! Lists of names in a question: string literals in round brackets.

ghost use Rattle.std.specs.Prelude.{◌≡◌, ◌≢◌, ◌++◌, ℕ, List, IfOk, MatchOption};
ghost use Rattle.std.specs.Str.{IsUtf8};
ghost use Rattle.server.specs.Questions.{SpellsNames};
ghost use Rattle.server.specs.Reading.{ClosesList};

use crate::asked::literal::literal_of;
use pqformat::{Items, Text};
use std::alloc::{AllocError, Global};

/// What follows this text, where it stands at the front.
#[tactic(auto, using(std::proofs::lemmas::Slice::Eq::strip_prefix_is))]
pub(crate) fn behind<'a>(text: &'a [u8], front: &str) -> Option<&'a [u8]>
    ensures { MatchOption result ((rest : List ℕ) → text.now ≢ front.now ++ rest)
        (λ rest. text.now ≡ front.now ++ rest.now) }
{
    text.strip_prefix(front.as_bytes())
}

/// What stands before this text, where it stands at the end.
#[tactic(auto, using(std::proofs::lemmas::Slice::Eq::strip_suffix_is))]
pub(crate) fn before<'a>(text: &'a [u8], end: &str) -> Option<&'a [u8]>
    ensures { MatchOption result ((front : List ℕ) → text.now ≢ front ++ end.now)
        (λ front. text.now ≡ front.now ++ end.now) }
{
    text.strip_suffix(end.as_bytes())
}

/// The names of a list of which the opening bracket was read, up to what closes it, with which the text ends.
pub(crate) fn names_of(
    alloc: Global,
    end: &str,
    text: &[u8],
) -> Result<Option<Items<Text>>, AllocError>
    requires utf8 { IsUtf8 text.now }
    requires apart { ClosesList end.now }
    ensures { IfOk result
        (λ found. MatchOption found ((names : List (List ℕ)) → SpellsNames end.now text.now names → ⊥)
        (λ names. SpellsNames end.now text.now names)) }
{
    let mut names = Vec::new(alloc);
    let mut place = text;
    loop {
        let Some((name, rest)) = literal_of(alloc, place)? else {
            return Ok(None);
        };
        names.push(name)?;
        if rest == end.as_bytes() {
            return Ok(Some(Items::new(names)));
        }
        let Some(more) = behind(rest, ", ") else {
            return Ok(None);
        };
        place = more;
    }
}
