//! Scripts: the steps of their lines.

use super::lines::{content_of, is_passed_over};
use super::step::ScriptStep;
use schedule::LineRefusal;
use std::alloc::Global;

/// The steps of a script, in the order of its lines.
#[derive(Drop)]
pub struct Steps {
    steps: Vec<NumberedStep>,
}

/// A step, and the number of its line, from 1.
#[derive(Drop)]
pub struct NumberedStep {
    pub line: usize,
    pub step: ScriptStep,
}

/// The line of a script that was not read, and why.
#[derive(Clone, Copy, Debug)]
pub struct StepFault {
    pub line: usize,
    pub refusal: LineRefusal,
}

impl Steps {
    /// The steps of all lines. Empty lines and those that begin with `#` are passed over, but counted. The fault is of the first
    /// line that is no step (`Bad`), or for which memory is refused (`Memory`).
    pub fn parse(alloc: Global, text: &str) -> Result<Steps, StepFault> {
        let mut steps = Steps {
            steps: Vec::new(alloc),
        };
        steps.add_lines(alloc, text)?;
        Ok(steps)
    }

    fn add_lines(&mut self, alloc: Global, text: &str) -> Result<(), StepFault> {
        for (line, text) in (1..usize::MAX).zip(text.split('\n')) {
            let content = content_of(text);
            if is_passed_over(content) {
                continue;
            }
            if let Err(refusal) = self.add(alloc, line, content) {
                return Err(StepFault { line, refusal });
            }
        }
        Ok(())
    }

    fn add(&mut self, alloc: Global, line: usize, content: &str) -> Result<(), LineRefusal> {
        let step = ScriptStep::parse(alloc, content)?;
        self.steps.push(NumberedStep { line, step })?;
        Ok(())
    }

    /// All of them.
    pub fn as_slice(&self) -> &[NumberedStep] {
        self.steps.as_slice()
    }
}
