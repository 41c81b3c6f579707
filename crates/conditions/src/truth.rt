//! True, false or unknown.

ghost use Rattle.std.specs.Prelude.{◌≡◌};
ghost use Rattle.conditions.specs.Truth.{both, certain, either, is_true, opposite};

/// What a condition is of a row: one of SQL's three truth values (PostgreSQL 15, 9.1).
#[derive(Clone, Copy, Debug, PartialEq, Eq)]
pub enum Truth {
    True,
    False,
    Unknown,
}

impl Truth {
    pub(crate) fn of(holds: bool) -> Truth
        ensures { result ≡ certain holds }
    {
        if holds { Truth::True } else { Truth::False }
    }

    pub fn is_true(self) -> bool
        ensures { result ≡ is_true self }
    {
        self == Truth::True
    }

    pub(crate) fn not(self) -> Truth
        ensures { result ≡ opposite self }
    {
        match self {
            Truth::True => Truth::False,
            Truth::False => Truth::True,
            Truth::Unknown => Truth::Unknown,
        }
    }

    pub(crate) fn and(self, other: Truth) -> Truth
        ensures { result ≡ both self other }
    {
        match (self, other) {
            (Truth::False, _) | (_, Truth::False) => Truth::False,
            (Truth::True, Truth::True) => Truth::True,
            _ => Truth::Unknown,
        }
    }

    pub(crate) fn or(self, other: Truth) -> Truth
        ensures { result ≡ either self other }
    {
        self.not().and(other.not()).not()
    }
}
