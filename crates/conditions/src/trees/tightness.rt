//! How tight the parts of a filter bind, from the loosest to an operand (PostgreSQL 15, 4.1.6).

pub(crate) const OR: usize = 0;

pub(crate) const AND: usize = 1;

pub(crate) const NOT: usize = 2;

pub(crate) const IS: usize = 3;

pub(crate) const COMPARISON: usize = 4;

pub(crate) const OPERAND: usize = 5;
