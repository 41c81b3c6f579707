//! The signs between two operands (PostgreSQL 15, 9.2).

ghost use Rattle.std.specs.Prelude.{◌≡◌};
ghost use Rattle.conditions.specs.Truth.{holds};

use std::cmp::Ordering;

#[derive(Clone, Copy)]
pub enum Comparison {
    Equal,
    NotEqual,
    Less,
    Greater,
    LessOrEqual,
    GreaterOrEqual,
}

impl Comparison {
    /// Whether the comparison holds of two values that stand to each other in this order.
    pub(crate) fn holds(self, order: Ordering) -> bool
        ensures { result ≡ holds self order }
    {
        match self {
            Comparison::Equal => order.is_eq(),
            Comparison::NotEqual => order.is_ne(),
            Comparison::Less => order.is_lt(),
            Comparison::Greater => order.is_gt(),
            Comparison::LessOrEqual => order.is_le(),
            Comparison::GreaterOrEqual => order.is_ge(),
        }
    }
}
