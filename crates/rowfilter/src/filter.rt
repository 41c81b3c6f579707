//! The filter of a table.

ghost use Rattle.std.specs.Prelude.{◌≡◌, IfOk};
ghost use Rattle.conditions.specs.Truth.{is_true, truth as truth_in};
ghost use Rattle.conditions.specs.Conditions.{AreNamed, names};
ghost use Rattle.conditions.specs.Shapes.{shape};

use conditions::{Expression, Step, Truth, holds_by};
use pqformat::Items;
use std::alloc::{AllocError, Global};
use std::marker::Model;
use tables::{Row, RowRef};

/// A condition over the rows of a table. Contracts see it as the tree that it is.
#[derive(Drop)]
pub struct Filter {
    expression: Expression,
    columns: Items<usize>,
    /// The same condition, by which it is asked row by row.
    steps: Items<Step>,
}

impl Model for Filter {
    ghost use Rattle.std.specs.Prelude.{◌≡◌, []};
    ghost use Rattle.std.specs.Coded.{codes};
    ghost use Rattle.rowfilter.specs.Codes.{condition_code};
    ghost use Rattle.conditions.specs.Conditions.{Condition};
    ghost use Rattle.conditions.specs.Shapes.{shape, with_places_of};
    ghost use Rattle.conditions.specs.Steps.{AreStepsOf};

    ghost Value = { Condition };

    ghost coded = { condition_code (Prim.hlevel codes) };

    ghost view = { λ f. shape f.expression };

    ghost invariant = { λ f. (f.columns ≡ with_places_of (shape f.expression) [])
        × AreStepsOf f.steps (shape f.expression) };
}

impl Filter {
    pub(crate) fn new(alloc: Global, expression: Expression) -> Result<Filter, AllocError>
        ensures { IfOk result (λ f. f ≡ shape expression) }
    {
        let mut columns = Vec::new(alloc);
        expression.gather(&mut columns)?;
        let steps = expression.steps(alloc)?;
        Ok(Filter {
            expression,
            columns: Items::new(columns),
            steps: Items::new(steps),
        })
    }

    /// A copy; `AllocError` where memory for it is refused.
    pub fn copy(&self, alloc: Global) -> Result<Filter, AllocError>
        ensures { IfOk result (λ f. f ≡ self.now) }
    {
        Filter::new(alloc, self.expression.copy(alloc)?)
    }

    /// Whether the filter is true of the row, false, or unknown. The row is one of the table that it was read for; it
    /// takes no memory.
    pub fn truth(&self, row: &Row) -> Truth
        ensures { result ≡ truth_in self.now row.now }
    {
        self.expression.truth(&RowRef::of(row))
    }

    /// The same of a row that is read where it lies.
    pub fn truth_in(&self, row: &RowRef<'_>) -> Truth
        ensures { result ≡ truth_in self.now row.now }
    {
        self.expression.truth(row)
    }

    /// Whether the filter is true of a row that is read where it lies, by the steps that decide it.
    pub fn holds(&self, row: &RowRef<'_>) -> bool
        ensures { result ≡ is_true (truth_in self.now row.now) }
    {
        holds_by(self.steps.as_slice(), row)
    }

    /// Whether the filter names the column at this place of its table.
    pub fn names(&self, place: usize) -> bool
        ensures { result ≡ names self.now place }
    {
        self.expression.names(place)
    }

    /// The places of the columns that the filter names, each once.
    pub fn columns(&self) -> &[usize]
        ensures { AreNamed self.now result.now }
    {
        self.columns.as_slice()
    }
}
