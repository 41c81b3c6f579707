//! What waits for the part on its right.

ghost use Rattle.std.specs.Prelude.{◌≡◌, IfOk, nat_lt};
ghost use Rattle.conditions.specs.Parts.{parts};
ghost use Rattle.conditions.specs.Stacks.{completed, folded, wanted_by, wants};
ghost use Rattle.conditions.specs.Views.{fold_seen, seen_part, seen_pending, stack_of};

use crate::trees::joint::Joint;
use crate::trees::part::Part;
use crate::trees::tightness::{NOT, OR};
use std::alloc::{AllocError, Global};

/// What was read and waits for what stands on its right.
#[derive(Drop)]
pub enum Pending {
    Parenthesis,
    Not,
    /// AND, OR or a comparison, with what stands on its left.
    Joint(Joint, Part),
}

impl Pending {
    /// How tight its right side binds at least.
    pub(crate) fn wants(&self) -> usize
        ensures { result ≡ wants (seen_pending self.now) }
    {
        match self {
            Pending::Parenthesis => OR,
            Pending::Not => NOT,
            Pending::Joint(joint, _) => joint.right(),
        }
    }

    /// It with this part on its right.
    pub(crate) fn completed(self, alloc: Global, part: Part) -> Result<Part, AllocError>
        ensures { IfOk result
            (λ p. seen_part p ≡ completed parts (seen_pending self) (seen_part part)) }
    {
        match self {
            Pending::Parenthesis => Ok(part.enclosed()),
            Pending::Not => part.denied(alloc),
            Pending::Joint(joint, left) => Part::joined(alloc, joint, left, part),
        }
    }
}

/// How tight a part binds at least after these, the last of which waits for it.
#[tactic(auto, using(crate::proofs::Stacking::stack_pushed))]
pub(crate) fn wanted_by(pending: &[Pending]) -> usize
    ensures { result ≡ wanted_by (stack_of pending.now) }
{
    match pending.split_last() {
        Some((item, _)) => item.wants(),
        None => OR,
    }
}

/// Completes with the part what waits for one that binds tighter than its use does.
#[tactic(auto, using(crate::proofs::Stacking::stack_pushed))]
pub(crate) fn folded(
    alloc: Global,
    pending: &mut Vec<Pending>,
    tightness: usize,
    part: Part,
) -> Result<Part, AllocError>
    ensures { IfOk result
        (λ p. fold_seen (stack_of pending.new.items) p
        ≡ folded parts tightness (stack_of pending.old.items) (seen_part part)) }
{
    let mut part = part;
    while tightness < wanted_by(pending.as_slice()) {
        let Some(item) = pending.pop() else {
            return Ok(part);
        };
        part = item.completed(alloc, part)?;
    }
    Ok(part)
}
