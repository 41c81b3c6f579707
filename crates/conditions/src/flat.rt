//! Conditions laid out flat.

pub(crate) mod step;
pub(crate) mod steps;
