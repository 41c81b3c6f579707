//! What is printed of a run.

pub(crate) mod answer;
pub(crate) mod codes;
pub(crate) mod report;
