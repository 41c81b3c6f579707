//! Values as they stand in filters.

ghost use Rattle.std.specs.Prelude.{◌≡◌, IfOk};

use pqformat::Items;
use std::alloc::{AllocError, Global};

/// A value as it stands in a filter. A text is held as its bytes, by which it is compared.
#[derive(Drop)]
pub enum Literal {
    Null,
    Bool(bool),
    Number(i64),
    Text(Items<u8>),
}

impl Literal {
    pub(crate) fn copy(&self, alloc: Global) -> Result<Literal, AllocError>
        ensures { IfOk result (λ l. l ≡ self.now) }
    {
        Ok(match self {
            Literal::Null => Literal::Null,
            Literal::Bool(b) => Literal::Bool(*b),
            Literal::Number(n) => Literal::Number(*n),
            Literal::Text(bytes) => {
                Literal::Text(Items::new(Vec::from_slice(alloc, bytes.as_slice())?))
            }
        })
    }
}
