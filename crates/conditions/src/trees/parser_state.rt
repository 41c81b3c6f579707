//! Where a reading stands, and what one word more makes of it.

ghost use Rattle.std.specs.Prelude.{◌≡◌, List, ◌∷◌, Some};
ghost use Rattle.conditions.specs.Parts.{parts};
ghost use Rattle.conditions.specs.Stacks.{Asking, Having, Wanting, asks, binds, closes, closes_over, folded, joins, outcome, step};
ghost use Rattle.conditions.specs.Views.{GivesPart, Item, Moves, seen_part, seen_pending, seen_word, stack_of, state_of};

use crate::fault::FilterFault;
use crate::trees::joint::Joint;
use crate::trees::part::Part;
use crate::trees::pending::{Pending, folded, wanted_by};
use crate::trees::tightness::{COMPARISON, IS, NOT, OR};
use crate::words::filter_word::FilterWord;
use std::alloc::Global;

/// What the next word meets.
#[derive(Drop)]
pub enum ParserState {
    /// An operand is wanted.
    Wanting,
    /// A part stands there.
    Having(Part),
    /// IS stands after a part; where the flag is set, IS NOT.
    Asking(Part, bool),
}

impl ParserState {
    /// The place after one word more; `Syntax` (X1) where the word can't stand here. Or `Memory` (X6). Numbers of over 64 bits
    /// and too many levels are told in the part alone.
    pub fn next(
        self,
        alloc: Global,
        pending: &mut Vec<Pending>,
        word: FilterWord,
    ) -> Result<ParserState, FilterFault>
        ensures { Moves result pending.new.items
            (step parts (state_of pending.old.items self) (seen_word word)) }
    {
        match self {
            ParserState::Wanting => begun(pending, word),
            ParserState::Having(part) => followed(alloc, pending, part, word),
            ParserState::Asking(part, is_negated) => answered(alloc, part, is_negated, &word),
        }
    }
}

/// A word where an operand is wanted.
fn begun(pending: &mut Vec<Pending>, word: FilterWord) -> Result<ParserState, FilterFault>
    ensures { Moves result pending.new.items
        (step parts (Wanting (stack_of pending.old.items)) (seen_word word)) }
{
    match word {
        FilterWord::Operand(part, _) => Ok(ParserState::Having(part)),
        FilterWord::Open => awaits(pending, Pending::Parenthesis),
        FilterWord::Not if wanted_by(pending.as_slice()) <= NOT => awaits(pending, Pending::Not),
        _ => Err(FilterFault::Syntax),
    }
}

/// The item waits for what follows.
#[tactic(auto, using(crate::proofs::Stacking::stack_pushed))]
fn awaits(pending: &mut Vec<Pending>, item: Pending) -> Result<ParserState, FilterFault>
    ensures { Moves result pending.new.items
        (Some (Wanting (seen_pending item ∷ stack_of pending.old.items))) }
{
    pending.push(item)?;
    Ok(ParserState::Wanting)
}

/// A word after a part.
fn followed(
    alloc: Global,
    pending: &mut Vec<Pending>,
    part: Part,
    word: FilterWord,
) -> Result<ParserState, FilterFault>
    ensures { Moves result pending.new.items
        (step parts (Having (stack_of pending.old.items) (seen_part part)) (seen_word word)) }
{
    match word {
        FilterWord::Joint(joint) => joined(alloc, pending, part, joint),
        FilterWord::Is => asked(alloc, pending, part),
        FilterWord::Close => closed(alloc, pending, part),
        _ => Err(FilterFault::Syntax),
    }
}

fn joined(
    alloc: Global,
    pending: &mut Vec<Pending>,
    part: Part,
    joint: Joint,
) -> Result<ParserState, FilterFault>
    ensures { Moves result pending.new.items
        (joins parts joint
        (folded parts (binds joint) (stack_of pending.old.items) (seen_part part))) }
{
    let left = folded(alloc, pending, joint.tightness(), part)?;
    if left.tightness < joint.left() {
        return Err(FilterFault::Syntax);
    }
    awaits(pending, Pending::Joint(joint, left))
}

fn asked(alloc: Global, pending: &mut Vec<Pending>, part: Part) -> Result<ParserState, FilterFault>
    ensures { Moves result pending.new.items
        (asks parts (folded parts 3 (stack_of pending.old.items) (seen_part part))) }
{
    let left = folded(alloc, pending, IS, part)?;
    if left.tightness < COMPARISON {
        return Err(FilterFault::Syntax);
    }
    Ok(ParserState::Asking(left, false))
}

#[tactic(auto, using(crate::proofs::Stacking::stack_pushed))]
fn closed(alloc: Global, pending: &mut Vec<Pending>, part: Part) -> Result<ParserState, FilterFault>
    ensures { Moves result pending.new.items
        (closes parts (folded parts 0 (stack_of pending.old.items) (seen_part part))) }
{
    let inner = folded(alloc, pending, OR, part)?;
    let Some(item) = pending.pop() else {
        return Err(FilterFault::Syntax);
    };
    closed_by(item, inner)
}

/// The part with what waits for it, where that is a parenthesis.
fn closed_by(item: Pending, inner: Part) -> Result<ParserState, FilterFault>
    ensures { (items : List Item) →
        Moves result items
        (closes_over parts (seen_pending item ∷ stack_of items) (seen_part inner)) }
{
    match item {
        Pending::Parenthesis => Ok(ParserState::Having(inner.enclosed())),
        Pending::Not | Pending::Joint(_, _) => Err(FilterFault::Syntax),
    }
}

/// A word after IS or IS NOT.
fn answered(
    alloc: Global,
    part: Part,
    is_negated: bool,
    word: &FilterWord,
) -> Result<ParserState, FilterFault>
    ensures { (items : List Item) →
        Moves result items
        (step parts (Asking (stack_of items) (seen_part part) is_negated) (seen_word word.now)) }
{
    match word {
        FilterWord::Not if !is_negated => Ok(ParserState::Asking(part, true)),
        FilterWord::Operand(_, Some(question)) => {
            Ok(ParserState::Having(part.asked(alloc, *question, is_negated)?))
        }
        _ => Err(FilterFault::Syntax),
    }
}

/// The one part after the last word; `Syntax` (X1) where something still waits. Or `Memory` (X6).
#[tactic(auto, using(crate::proofs::Stacking::ends_none))]
pub fn whole(
    alloc: Global,
    pending: &mut Vec<Pending>,
    place: ParserState,
) -> Result<Part, FilterFault>
    ensures { GivesPart result (outcome parts (state_of pending.old.items place)) }
{
    let ParserState::Having(part) = place else {
        return Err(FilterFault::Syntax);
    };
    let whole = folded(alloc, pending, OR, part)?;
    if pending.is_empty() {
        Ok(whole)
    } else {
        Err(FilterFault::Syntax)
    }
}
