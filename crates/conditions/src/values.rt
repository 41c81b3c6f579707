//! What conditions ask of values.

pub(crate) mod against;
pub(crate) mod comparison;
pub(crate) mod is_test;
pub(crate) mod kinds;
pub(crate) mod operand;
pub(crate) mod sort;
