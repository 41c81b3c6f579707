//! What lines are made of.

pub(crate) mod cell_text;
pub(crate) mod members;
pub(crate) mod rows;
pub(crate) mod told_values;
pub(crate) mod values;
