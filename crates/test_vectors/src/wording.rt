//! Texts of answers and of faults.

pub(crate) mod answer;
pub(crate) mod fault_texts;
pub(crate) mod fields;
pub(crate) mod texts;
