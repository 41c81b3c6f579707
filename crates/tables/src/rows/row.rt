//! A row: its values in table order, and how long its coding is.

ghost use Rattle.std.specs.Prelude.{◌≡◌, ◌+◌, ◌<◌, ◌≤◌, ◌^◌, IfOk, MatchOption, OnSome, length};
ghost use Rattle.std.specs.List.{AllByRecursion};
ghost use Rattle.tables.specs.Kinds.{IsValue};
ghost use Rattle.tables.specs.Spelling.{row_length};

use crate::kinds::{Value, coded_len_of};
use pqformat::Items;
use std::alloc::{AllocError, Global};
use std::marker::Model;

/// The longest coding of a row, in bytes.
pub const MAX_ROW_LENGTH: usize = 8000;

/// The values of a row in table order. Contracts see the list of them.
#[derive(Debug, Drop, PartialEq)]
pub struct Row {
    values: Items<Value>,
}

impl Model for Row {
    ghost use Rattle.std.specs.Prelude.{List};
    ghost use Rattle.tables.specs.declared.kinds.Value.{Value as Datum};

    ghost Value = { List Datum };

    ghost view = { λ r. r.values };

    ghost inverse = { λ values. record { values = values } };
}

impl Row {
    pub fn new(values: Vec<Value>) -> Self
        ensures { result ≡ values.items }
    {
        Row {
            values: Items::new(values),
        }
    }

    pub fn values(&self) -> &[Value]
        ensures { result.now ≡ self.now }
    {
        self.values.as_slice()
    }

    /// A copy; `AllocError` where memory for it is refused.
    pub fn copy(&self, alloc: Global) -> Result<Self, AllocError>
        ensures { IfOk result (λ r. r ≡ self.now) }
    {
        let mut copies = Vec::with_capacity(alloc, self.values.len())?;
        for value in self.values() {
            copies.push(value.copy(alloc)?)?;
        }
        Ok(Row::new(copies))
    }
}

impl Row {
    /// The length of the row's coding in bytes; None where it passes the limit of 8,000.
    #[tactic(auto, using(crate::proofs::Values::lengths))]
    pub fn coded_len(&self) -> Option<usize>
        ensures value { MatchOption result (MAX_ROW_LENGTH < row_length self.now)
            (λ n. (n ≡ row_length self.now) × (n ≤ MAX_ROW_LENGTH)) }
        ensures in_range { OnSome result (AllByRecursion IsValue self.now) }
    {
        let mut len = 2;
        for value in self.values() {
            len += coded_len_of(value);
            if len > MAX_ROW_LENGTH {
                return None;
            }
        }
        Some(len)
    }
}
