//! What stands between two operands, and how tight it binds.

ghost use Rattle.std.specs.Prelude.{◌≡◌};
ghost use Rattle.conditions.specs.Stacks.{binds, left_of, right_of};

use crate::trees::tightness::{AND, COMPARISON, NOT, OPERAND, OR};
use crate::values::comparison::Comparison;

/// AND, OR, or a comparison.
#[derive(Clone, Copy)]
pub enum Joint {
    Or,
    And,
    Comparison(Comparison),
}

impl Joint {
    /// How tight it binds.
    pub(crate) fn tightness(self) -> usize
        ensures { result ≡ binds self }
    {
        match self {
            Joint::Or => OR,
            Joint::And => AND,
            Joint::Comparison(_) => COMPARISON,
        }
    }

    /// How tight its left side binds at least.
    pub(crate) fn left(self) -> usize
        ensures { result ≡ left_of self }
    {
        match self {
            Joint::Or => OR,
            Joint::And => AND,
            Joint::Comparison(_) => OPERAND,
        }
    }

    /// How tight its right side binds at least.
    pub(crate) fn right(self) -> usize
        ensures { result ≡ right_of self }
    {
        match self {
            Joint::Or => AND,
            Joint::And => NOT,
            Joint::Comparison(_) => OPERAND,
        }
    }
}
