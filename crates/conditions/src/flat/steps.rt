//! From a condition to its steps, and by them to whether it is true of a row.

ghost use Rattle.std.specs.Prelude.{◌≡◌, [], IfOk, OnOk};
ghost use Rattle.conditions.specs.Conditions.{Condition};
ghost use Rattle.conditions.specs.Shapes.{shape};
ghost use Rattle.conditions.specs.Steps.{AreStepsOf, LeadDown, turns, turns_of};
ghost use Rattle.conditions.specs.Truth.{is_true, truth as truth_in};

use crate::expression::Expression;
use crate::flat::step::{NumberRead, Step, StepCondition};
use std::alloc::{AllocError, Global};
use tables::RowRef;

impl Expression {
    /// Its steps. The one that is asked first stands last. `AllocError` where memory for them is refused.
    pub fn steps(&self, alloc: Global) -> Result<Vec<Step>, AllocError>
        ensures { IfOk result (λ steps. AreStepsOf steps.items (shape self.now)) }
    {
        let mut steps = Vec::new(alloc);
        self.lay_out(alloc, 1, 0, &mut steps)?;
        Ok(steps)
    }

    /// Adds its steps to those that are asked after it, of which these are next where it is true, and where it isn't.
    #[tactic(auto, using(crate::proofs::Stepping::stepping))]
    fn lay_out(
        &self,
        alloc: Global,
        next_if_true: usize,
        next_if_not: usize,
        steps: &mut Vec<Step>,
    ) -> Result<(), AllocError>
        ensures { OnOk result
            (turns steps.new.items
            ≡ turns_of (shape self.now) next_if_true next_if_not (turns steps.old.items)) }
    {
        match self {
            Expression::And(a, b) => {
                b.lay_out(alloc, next_if_true, next_if_not, steps)?;
                a.lay_out(alloc, steps.len() + 1, next_if_not, steps)
            }
            Expression::Or(a, b) => {
                b.lay_out(alloc, next_if_true, next_if_not, steps)?;
                a.lay_out(alloc, next_if_true, steps.len() + 1, steps)
            }
            Expression::Column(_)
            | Expression::Literal(_)
            | Expression::Compare(_, _, _)
            | Expression::Is(_, _, _)
            | Expression::Not(_) => {
                let asked = StepCondition::of(alloc, self)?;
                steps.push(Step {
                    asked,
                    next_if_true,
                    next_if_not,
                })?;
                Ok(())
            }
        }
    }
}

/// Whether the condition of these steps is true of the row.
pub fn holds_by(steps: &[Step], row: &RowRef<'_>) -> bool
    requires { LeadDown (turns steps.now) }
    ensures { (c : Condition) → AreStepsOf steps.now c → result ≡ is_true (truth_in c row.now) }
{
    let mut last = NumberRead::none();
    let mut next = steps.len() + 1;
    while next > 1 {
        let step = &steps[next - 2];
        next = step.next(step.asked.holds(row, &mut last));
    }
    next == 1
}
