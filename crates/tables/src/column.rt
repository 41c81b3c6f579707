//! A column of a table, and the values that it takes.

ghost use Rattle.std.specs.Prelude.{◌≡◌, IfOk};
ghost use Rattle.tables.specs.Kinds.{value_of};
ghost use Rattle.tables.specs.Tables.{fits_column};

use crate::kinds::{Kind, Value, ValueRef};
use pqformat::Text;
use std::alloc::{AllocError, Global};

#[derive(Debug, Drop)]
pub struct Column {
    pub name: Text,
    pub kind: Kind,
    /// Whether it belongs to the primary key.
    pub is_key: bool,
}

impl Column {
    /// A copy; `AllocError` where memory for it is refused.
    pub fn copy(&self, alloc: Global) -> Result<Self, AllocError>
        ensures { IfOk result (λ c. c ≡ self.now) }
    {
        Ok(Column {
            name: self.name.copy(alloc)?,
            kind: self.kind,
            is_key: self.is_key,
        })
    }

    /// Whether the value may stand in this column.
    pub fn takes(&self, value: &Value) -> bool
        ensures { result ≡ fits_column self.now value.now }
    {
        self.takes_ref(value.lend())
    }

    /// The same of a value that is read where it lies.
    pub(crate) fn takes_ref(&self, value: ValueRef<'_>) -> bool
        ensures { result ≡ fits_column self.now (value_of value.entry) }
    {
        match value {
            ValueRef::Null => !self.is_key,
            _ => self.kind.holds(value),
        }
    }
}
